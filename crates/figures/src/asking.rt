// Questions to sheets and to rules, which change nothing.
use board::boards::Board;
use elastic_rule::rule::Elastic;
use model::entries::Entry;
use rules::evidence::Tells;
use rules::rule::Rule;
use sheet::cuts::Cut;
use sheet::mirrors::Mirror;
use sheet::sheets::Sheet;
use shift_rule::shifts::Shift;
use std::fmt::Display;
use std::{fmt, io};
use sweep::presenting::present;
use time_table_rule::rule::TimeTable;

// An entry: its window, its duration and its demand.
#[derive(Clone, Copy)]
struct Shown(Entry);

impl Display for Shown {
    fn fmt<W: fmt::Write>(&self, f: &mut fmt::Formatter<W>) -> fmt::Result {
        let e = self.0;
        write!(
            f,
            "({},{}) p {} c {}",
            e.release, e.deadline, e.duration, e.demand
        )
    }
}

// Prints what is found at a place, or that there is nothing.
fn show_found<T: Display + Drop>(rt: &HostRuntime, found: Option<T>) -> io::Result<()> {
    match found {
        Some(value) => print!(rt; " {value}"),
        None => rt.print(" absent"),
    }
}

// Prints the capacity, the count and the entries, and what is answered for the place after the last.
fn show_sheet<S: Sheet>(rt: &HostRuntime, sheet: &S) -> io::Result<()> {
    print!(rt; "C {} N {}", sheet.capacity(), sheet.count())?;
    for place in 0..=sheet.count() {
        show_found(rt, sheet.entry(place).map(Shown))?;
    }
    Ok(())
}

// Prints the interval that evidence tells, or that there is none.
// kept: an interval stands in three lines of this program, each in words of its own, so that a Display of its two numbers would be no plainer.
fn show_evidence<V: Tells + Drop>(rt: &HostRuntime, evidence: Option<V>) -> io::Result<()> {
    match evidence {
        Some(evidence) => {
            let interval = evidence.interval();
            print!(rt; " overfull {} {},", interval.t1, interval.t2)
        }
        None => rt.print(" no evidence,"),
    }
}

// Prints what a rule answers of a sheet: its letter, its evidence, and the earliest starts, one more than there are entries.
fn show_rule<R: Rule, S: Sheet>(rt: &HostRuntime, rule: &R, sheet: &S) -> io::Result<()> {
    print!(rt; "; {}", rule.mark())?;
    show_evidence(rt, rule.evidence(sheet))?;
    for place in 0..=sheet.count() {
        show_found(rt, rule.earliest(sheet, place))?;
    }
    Ok(())
}

// Prints a sheet, and what the three rules answer of it.
fn show<S: Sheet>(rt: &HostRuntime, sheet: &S) -> io::Result<()> {
    show_sheet(rt, sheet)?;
    show_rule(rt, &TimeTable, sheet)?;
    show_rule(rt, &Elastic, sheet)?;
    show_rule(rt, &Shift, sheet)?;
    rt.println("")
}

// A number as a deadline; what is too great for one is far past every slot.
fn deadline(number: u32) -> u16 {
    u16::try_from(number).unwrap_or(u16::MAX)
}

// Asks the sheet that a word names; says false if it names none, or if the numbers are too many or too few.
pub(crate) fn ask(rt: &HostRuntime, board: &Board, word: &str, given: &[u32]) -> io::Result<bool> {
    let sheet = present(board);
    let shown = match (word, given) {
        ("sheet", []) => show(rt, &sheet),
        ("mirror", []) => show(rt, &Mirror::of(&sheet)),
        // a usize has 64 bits, but From does not know it
        ("cut", &[place, number]) => show(rt, &Cut::of(&sheet, place as usize, deadline(number))),
        ("cut of mirror", &[place, number]) => show(
            rt,
            &Cut::of(&Mirror::of(&sheet), place as usize, deadline(number)),
        ),
        _ => return Ok(false),
    };
    shown?;
    Ok(true)
}
