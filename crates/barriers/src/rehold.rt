// RESUME and DROP.
ghost use Rattle.program.specs.declared.command.Command.TheVariants.{Resume, Drop};
ghost use Rattle.std.specs.Prelude.{◌<◌};
ghost use Rattle.rules.specs.State.{taken_number};
ghost use Rattle.moves.specs.Moves.{Turns};
ghost use Rattle.barriers.specs.Reheld.{Reholds};

use fields::holds::{hold_at, put_hold};
use moves::{Taken, fail, go_on, unspent};
use parts::checks::is_held;
use parts::empty::no_hold;
use parts::holds::quiesce;
use rules::state::{Fault, Hold};

// The name holds something else, where it holds a clock.
fn rehold(work: u64, state: &mut [u8], i: usize, c: usize, new: Hold) -> Taken
    ensures { c < 8 → Reholds c new state.old state.new work i (taken_number result) }
{
    let h = hold_at(state, i, c);
    if !is_held(h.registration) {
        return fail(work, state, i, Fault::F1);
    }
    unspent(state, work)?;
    put_hold(state, i, c, new);
    go_on(state, i, 2)
}

// RESUME: the clock is quiesced.
pub fn resume(work: u64, state: &mut [u8], i: usize, c: usize) -> Taken
    ensures { c < 8 → Turns (Resume c) state.old state.new work i (taken_number result) }
{
    let h = hold_at(state, i, c);
    rehold(work, state, i, c, quiesce(h))
}

// DROP: the name holds no clock.
pub fn drop(work: u64, state: &mut [u8], i: usize, c: usize) -> Taken
    ensures { c < 8 → Turns (Drop c) state.old state.new work i (taken_number result) }
{
    rehold(work, state, i, c, no_hold())
}
