// Pages of the walk's lines.
ghost use Rattle.lines.specs.Paged.{Paged};

use super::put::Text;
use super::steps::{Steps, steps_of};

// Room for any line, in bytes.
const ROOM: usize = 128;

impl Text<'_> {
    // Puts the lines from one on, as long as there is room for any, and answers how many lines there are by then.
    pub fn page(&mut self, steps: Steps<'_>, line: usize) -> usize
        ensures { Paged self.old steps.entry.order.now steps.entry.answers.now steps.entry.awaited.now line self.new result }
    {
        let end = steps.len();
        let mut taken = steps.taken_by(line);
        for next in line..end {
            if self.room() < ROOM {
                return next;
            }
            taken += steps_of(steps.answers[next]);
            self.line(
                next as u64 + 1,
                steps.order[next],
                steps.answers[next],
                taken,
                steps.awaited[next],
            );
        }
        line.max(end)
    }
}
