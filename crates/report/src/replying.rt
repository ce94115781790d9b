// The line that answers a command.
ghost use Rattle.report.specs.Replies.{reply_line};

use crate::replies::Reply;
use crate::texts::Text;
use crate::writing::{Lines, figure, overfull, squeezed};

impl Lines for Reply {
    ghost lines = { reply_line };

    ghost most = { 60 };

    fn write(&self, text: &mut Text) {
        match *self {
            Reply::Done => text.push_str("OK\n"),
            Reply::Refused(why) => {
                text.push_str("REFUSED ");
                figure(text, why.number(), "\n");
            }
            Reply::Place(place) => {
                text.push_str("PLACE ");
                figure(text, place, "\n");
            }
            Reply::Overfull { letter, interval } => overfull(text, letter, interval, "\n"),
            Reply::Squeezed { letter, row } => squeezed(text, letter, row, "\n"),
            Reply::Narrowed => text.push_str("NARROWED\n"),
            Reply::Quiet => text.push_str("QUIET\n"),
            Reply::Unknown => text.push_str("UNKNOWN\n"),
        }
    }
}
