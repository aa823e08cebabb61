// REPEAT.
ghost use Rattle.program.specs.declared.command.Command.TheVariants.{Repeat};
ghost use Rattle.rules.specs.State.{taken_number};
ghost use Rattle.moves.specs.Moves.{Turns};

use super::push::push;
use moves::{Taken, go_on, unspent};

// REPEAT: the body begins with all its runs; of 0 runs nothing begins.
pub fn repeat(work: u64, state: &mut [u8], i: usize, n: u8, b: u8) -> Taken
    ensures { Turns (Repeat n b) state.old state.new work i (taken_number result) }
{
    unspent(state, work)?;
    if n == 0 {
        return go_on(state, i, 3);
    }
    push(state, i, b, n, 0)
}
