// The report: the text of a board with a sweep's answer, or of a fault, or of the answer to a command, into a buffer.
#![tactic(auto)]

pub mod answers;
mod lines;
pub mod refusals;
pub mod replies;
mod replying;
pub mod reports;
pub mod texts;
mod writing;
