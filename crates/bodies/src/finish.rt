// FINISH.
ghost use Rattle.program.specs.declared.command.Command.TheVariants.{Finish};
ghost use Rattle.rules.specs.State.{taken_number};
ghost use Rattle.moves.specs.Moves.{Turns};

use super::push::push;
use fields::counts::activities_of;
use moves::{Taken, unspent};

// FINISH: the body begins, and notes the number that the next activity gets.
pub fn finish(work: u64, state: &mut [u8], i: usize, b: u8) -> Taken
    ensures { Turns (Finish b) state.old state.new work i (taken_number result) }
{
    unspent(state, work)?;
    let first = activities_of(state);
    push(state, i, b, 0, first)
}
