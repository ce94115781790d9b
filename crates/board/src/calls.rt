// The calls on a board that are obeyed or refused.
ghost use Rattle.std.specs.Prelude.{◌≡◌, IfOk, MatchOption, MatchResult};
ghost use Rattle.board.specs.Calls.{Nothing, First, Wrong, Misfit, StandsAt, Free, row_of, built, Builds, Enters, Withdraws, Rebooks};
ghost use Rattle.board.specs.Held.{bookings};

use crate::boards::Board;
use crate::bookings::Test;
use crate::places::place;
use crate::refusals::Refusal;
use crate::table::Table;
use model::limits::{CAPACITY_MAX, ROWS_MAX, SLOTS};
use model::rows::{Pair, Row};
use model::windows::Window;
use std::alloc::{AllocError, Global};

// The window of two numbers, if it ends by the last slot and has room for a duration.
fn window(duration: u32, release: u32, deadline: u32) -> Result<Window, Refusal>
    ensures { MatchResult result (λ w. (¬ Misfit duration release deadline) × (w ≡ record { release = release; deadline = deadline })) (λ r. Misfit duration release deadline × (r ≡ Refusal.Window)) }
{
    if deadline <= u32::from(SLOTS) && duration <= deadline && release <= deadline - duration {
        // both are at most 4,032 here, so the casts lose nothing, and try_from would add a branch that is never taken
        Ok(Window {
            release: release as u16,
            deadline: deadline as u16,
        })
    } else {
        Err(Refusal::Window)
    }
}

impl Board {
    // A board never built: capacity 1, no rows, and room for as many as a board may have. No other call on a board asks for memory.
    pub fn new(heap: Global) -> Result<Board, AllocError>
        ensures { IfOk result (λ b. bookings b ≡ built 1) }
    {
        Ok(Board {
            capacity: 1,
            table: Table::new(heap)?,
        })
    }

    // Makes this a board of the given capacity without rows.
    pub fn build(&mut self, capacity: u32) -> Result<(), Refusal>
        ensures { Builds (bookings self.old) capacity result (bookings self.new) }
    {
        if !(1..=u32::from(CAPACITY_MAX)).contains(&capacity) {
            return Err(Refusal::Capacity);
        }
        self.table.clear();
        // below 4,096 here, so that the cast loses nothing
        self.capacity = capacity as u16;
        Ok(())
    }

    // The place of the row with a pair.
    fn find(&self, pair: Pair) -> Option<usize>
        ensures { MatchOption result (Free pair (bookings self.now).rows) (λ k. StandsAt pair (bookings self.now).rows k) }
    {
        self.rows().iter().position(|row| row.pair == pair)
    }

    // The row that a test makes; a test that is wrong is refused with the least number of what is wrong with it.
    fn judge(&self, test: Test) -> Result<Row, Refusal>
        ensures { MatchResult result (λ row. Nothing (Wrong (bookings self.now) test) × (row ≡ row_of test)) (λ w. First (Wrong (bookings self.now) test) w) }
    {
        place(test.pair)?;
        if !(1..=u32::from(SLOTS)).contains(&test.duration) {
            return Err(Refusal::Duration);
        }
        if !(1..=u32::from(self.capacity)).contains(&test.demand) {
            return Err(Refusal::Demand);
        }
        let entered = window(test.duration, test.release, test.deadline)?;
        if self.find(test.pair).is_some() {
            return Err(Refusal::Taken);
        }
        if self.rows().len() >= ROWS_MAX {
            return Err(Refusal::Full);
        }
        // both were judged, so that the casts lose nothing
        Ok(Row {
            pair: test.pair,
            duration: test.duration as u16,
            demand: test.demand as u16,
            entered,
            present: entered,
        })
    }
}

impl Board {
    // Books a test as the last row, its present window the entered one.
    pub fn enter(&mut self, test: Test) -> Result<(), Refusal>
        ensures { Enters (bookings self.old) test result (bookings self.new) }
    {
        let row = self.judge(test)?;
        self.table.add(row);
        Ok(())
    }

    // Takes the row with a pair off the board; the rows after it move up, and every present window is the entered one again.
    pub fn withdraw(&mut self, pair: Pair) -> Result<(), Refusal>
        ensures { Withdraws (bookings self.old) pair result (bookings self.new) }
    {
        let i = self.find(pair).ok_or(Refusal::Unknown)?;
        self.table.remove(i);
        self.table.reset();
        Ok(())
    }

    // Gives the row with a pair a new window as entered; every present window is the entered one again.
    pub fn rebook(&mut self, pair: Pair, release: u32, deadline: u32) -> Result<(), Refusal>
        ensures { Rebooks (bookings self.old) pair release deadline result (bookings self.new) }
    {
        let i = self.find(pair).ok_or(Refusal::Unknown)?;
        let window = window(u32::from(self.rows()[i].duration), release, deadline)?;
        self.table.rebook(i, window);
        self.table.reset();
        Ok(())
    }
}
