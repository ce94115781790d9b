// The board: one channel capacity, and the tests that are booked against it.
#![tactic(auto)]

pub mod answers;
pub mod boards;
pub mod bookings;
pub mod calls;
pub mod narrowing;
pub mod places;
pub mod questions;
pub mod refusals;
pub mod restoring;
pub mod saved;
pub mod table;
