// CLOCK.
ghost use Rattle.program.specs.declared.command.Command.TheVariants.{Clock};
ghost use Rattle.std.specs.Prelude.{◌<◌};
ghost use Rattle.rules.specs.State.{taken_number};
ghost use Rattle.moves.specs.Moves.{Turns};

use fields::counts::{clocks_of, put_clocks};
use fields::holds::{hold_at, put_hold};
use moves::{Taken, fail, go_on, unspent};
use parts::checks::is_held;
use program::refusal::Refusal;
use rules::state::{Fault, Hold, Registration};

// CLOCK: the name holds a new clock, in phase 0 and live.
pub fn clock(work: u64, state: &mut [u8], i: usize, c: usize) -> Taken
    ensures { c < 8 → Turns (Clock c) state.old state.new work i (taken_number result) }
{
    let h = hold_at(state, i, c);
    if is_held(h.registration) {
        return fail(work, state, i, Fault::F4);
    }
    unspent(state, work)?;
    let made = clocks_of(state);
    if 16 <= made {
        return Err(Refusal::Spent);
    }
    let new = Hold {
        phase: 0,
        clock: made,
        registration: Registration::Live,
    };
    put_hold(state, i, c, new);
    put_clocks(state, made + 1);
    go_on(state, i, 2)
}
