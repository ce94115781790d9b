// A text in memory of its own, long enough for every report.
use arrayvec::ArrayString;

// The bytes that a text has room for.
pub const REPORT_MAX: usize = 8192;

// A text under work.
pub(crate) type Text = ArrayString<REPORT_MAX>;
