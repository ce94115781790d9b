// The table of rows inside a board.
ghost use Rattle.std.specs.Prelude.{◌≡◌, ◌<◌, ◌≤◌, List, [], ◌∷◌, ◌++◌, map, length, IfOk, slice_set, vec_capacity};
ghost use Rattle.std.specs.List.{remove};
ghost use Rattle.model.specs.declared.rows.Row.{Row};
ghost use Rattle.model.specs.Sheets.{rows_max};
ghost use Rattle.model.specs.Limits.{row_at};
ghost use Rattle.model.specs.Changes.{reset, rebooked, narrowed};

use model::limits::ROWS_MAX;
use model::rows::Row;
use model::windows::Window;
use std::alloc::{AllocError, Global};
use std::marker::Model;

// The rows in order of entry, with room for as many as a board may have.
#[derive(Drop)]
pub struct Table {
    rows: Vec<Row>,
}

impl Model for Table {
    ghost Value = { List Row };

    ghost view = { λ t. t.rows.items };

    ghost invariant = { λ t. rows_max ≤ vec_capacity t.rows };
}

// kept: three calls ask that the row is there, which is of the place and not of the table.
impl Table {
    // A table without rows. No other call on a table asks for memory.
    pub(crate) fn new(heap: Global) -> Result<Table, AllocError>
        ensures { IfOk result (λ t. t ≡ []) }
    {
        let rows = Vec::with_capacity(heap, ROWS_MAX)?;
        Ok(Table { rows })
    }

    // The rows in order of entry.
    pub(crate) fn as_slice(&self) -> &[Row]
        ensures { result.now ≡ self.now }
    {
        self.rows.as_slice()
    }

    // Adds a last row, for which there is room.
    pub(crate) fn add(&mut self, row: Row)
        requires { length self.old < rows_max }
        ensures { self.new ≡ self.old ++ (row ∷ []) }
    {
        self.rows.push_reserved(row);
    }

    // Removes all rows.
    pub(crate) fn clear(&mut self)
        ensures { self.new ≡ [] }
    {
        self.rows.clear();
    }

    // Removes the row at place i; later rows move up by one.
    pub(crate) fn remove(&mut self, i: usize)
        requires { i < length self.old }
        ensures { self.new ≡ remove self.old i }
    {
        self.rows.remove(i);
    }

    // Gives the row at place i a new window, as entered and as present.
    pub(crate) fn rebook(&mut self, i: usize, window: Window)
        requires { i < length self.old }
        ensures { self.new ≡ slice_set self.old i (rebooked window (row_at self.old i)) }
    {
        let row = &mut self.rows[i];
        row.rebook(window);
    }

    // Gives the row at place i a new present window.
    pub(crate) fn narrow(&mut self, i: usize, window: Window)
        requires { i < length self.old }
        ensures { self.new ≡ slice_set self.old i (narrowed window (row_at self.old i)) }
    {
        let row = &mut self.rows[i];
        row.narrow(window);
    }

    // Makes every present window the entered one again.
    pub(crate) fn reset(&mut self)
        ensures { self.new ≡ map reset self.old }
    {
        for row in self.rows.iter_mut() {
            row.reset();
        }
    }

    // Replaces all rows, where there is room for them.
    pub(crate) fn refill(&mut self, rows: &[Row])
        requires { length rows.now ≤ rows_max }
        ensures { self.new ≡ rows.now }
    {
        self.rows.clear();
        // kept: the library's extension of a vector may ask for memory, and these pushes may not
        for row in rows {
            self.rows.push_reserved(*row);
        }
    }
}
