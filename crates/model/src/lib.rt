// What a campaign is made of: windows, rows, entries, and what placements and elastic schedules of them are.
#![tactic(auto)]

pub mod entries;
pub mod intervals;
pub mod limits;
pub mod rows;
pub mod windows;
