// CHOOSE.
ghost use Rattle.program.specs.declared.command.Command.TheVariants.{Choose};
ghost use Rattle.rules.specs.State.{taken_number};
ghost use Rattle.moves.specs.Moves.{Turns};

use super::push::push;
use fields::activities::register_at;
use moves::{Taken, go_on, unspent};

// CHOOSE: the body begins where the hand is not 0; else nothing begins.
pub fn choose(work: u64, state: &mut [u8], i: usize, b: u8) -> Taken
    ensures { Turns (Choose b) state.old state.new work i (taken_number result) }
{
    unspent(state, work)?;
    if register_at(state, i) == 0 {
        return go_on(state, i, 2);
    }
    push(state, i, b, 0, 0)
}
