// An order of turns.
ghost use Rattle.std.specs.Prelude.{◌≤◌, length};
ghost use Rattle.turns.specs.Turns.{Follows};

use super::{number, turn};
use places::accepted::Accepted;

// A turn for each byte of the order. The number of each answer goes into one buffer, and how many each waits for into the other, as far as it reaches.
pub fn follow(
    table: &Accepted<'_>,
    order: &[u8],
    answers: &mut [u8],
    awaited: &mut [u8],
    state: &mut [u8],
)
    requires { length order.now ≤ length answers.old }
    ensures { Follows table.now.bytes.now order.now answers.old answers.new awaited.old awaited.new state.old state.new }
{
    for (k, &i) in order.iter().enumerate() {
        let done = turn(table, state, i as usize);
        answers[k] = number(done.answer);
        if k < awaited.len() {
            awaited[k] = done.awaited;
        }
    }
}
