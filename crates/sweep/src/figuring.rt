// The two figures of each entry of a sheet.
ghost use Rattle.std.specs.Prelude.{◌≡◌, ℕ, ◌+◌, ◌<◌, ◌≤◌, length, Some, MatchOption, nat_lt, slice_index};
ghost use Rattle.model.specs.Sheets.{count, entry, horizon};
ghost use Rattle.runs.specs.Applying.{figures};
ghost use Rattle.sweep.specs.Windows.{window_at, window_between, TooShort};

use model::entries::Entry;
use model::limits::{ROWS_MAX, SLOTS};
use model::rows::Row;
use model::windows::Window;
use rules::rule::Rule;
use sheet::mirrors::Mirror;
use sheet::sheets::Sheet;

// The window between the release or the earliest start, whichever is later, and the same figure of the mirror, read backwards.
fn between(e: Entry, start: u16, mirrored_start: u16) -> Window
    requires { (e.deadline ≤ horizon) × (mirrored_start ≤ horizon) }
    ensures { result ≡ window_between e start mirrored_start }
{
    let mirrored_release = (SLOTS - e.deadline).max(mirrored_start);
    Window {
        release: e.release.max(start),
        deadline: SLOTS - mirrored_release,
    }
}

// The figures of all entries, each at its place, from the windows as they stand and the earliest starts on the sheet.
pub(crate) fn all_figures<R: Rule, S: Sheet>(
    rule: &R,
    sheet: &S,
    starts: &[u16; ROWS_MAX],
) -> [Window; ROWS_MAX]
    requires { (k : ℕ) → k < count (S.Sheet.meaning sheet.now) → (R.Rule.means rule.now).earliest (S.Sheet.meaning sheet.now) k ≡ Some (slice_index starts.now k) }
    ensures { (k : ℕ) → k < count (S.Sheet.meaning sheet.now) → window_at result k ≡ figures (R.Rule.means rule.now) (S.Sheet.meaning sheet.now) k }
{
    let mirror = Mirror::of(sheet);
    let mirrored_starts = rule.earliest_all(&mirror);
    // kept: an array by place, as the earliest starts of every rule are
    let mut windows = [Window::default(); ROWS_MAX];
    // by place, since a sheet is asked by place and lends no list
    for place in 0..sheet.count() {
        if let Some(e) = sheet.entry(place) {
            windows[place] = between(e, starts[place], mirrored_starts[place]);
        }
    }
    windows
}

// Whether a window leaves less than the duration of a row.
fn is_short(row: &Row, window: &Window) -> bool
    ensures { result ≡ nat_lt window.now.deadline (window.now.release + row.now.duration) }
{
    u32::from(window.deadline) < u32::from(window.release) + u32::from(row.duration)
}

// The first row whose window leaves less than its duration.
pub(crate) fn first_short(rows: &[Row], windows: &[Window]) -> Option<usize>
    requires { length rows.now ≤ length windows.now }
    ensures { MatchOption result ((k : ℕ) → k < length rows.now → ¬ TooShort rows.now windows.now k) (λ k. (k < length rows.now) × TooShort rows.now windows.now k × ((j : ℕ) → j < k → ¬ TooShort rows.now windows.now j)) }
{
    rows.iter()
        .zip(windows)
        .position(|(row, window)| is_short(row, window))
}
