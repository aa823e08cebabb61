// A body begins on top of the stack.
ghost use Rattle.bodies.specs.Pushes.{Pushes};
ghost use Rattle.rules.specs.State.{taken_number};

use fields::activities::{depth_at, put_depth};
use fields::frames::put_frame;
use moves::{Taken, counted};
use rules::state::Frame;

// The body begins at its first command, and a step is counted.
pub fn push(state: &mut [u8], i: usize, body: u8, runs: u8, first: u8) -> Taken
    ensures { Pushes body runs first state.old state.new i (taken_number result) }
{
    let depth = depth_at(state, i);
    if 16 <= depth {
        return Ok(None);
    }
    let begun = Frame {
        offset: 0,
        body,
        runs,
        first,
    };
    put_frame(state, i, depth as usize, begun);
    put_depth(state, i, depth + 1);
    counted(state)
}
