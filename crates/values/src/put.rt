// PUT.
ghost use Rattle.program.specs.declared.command.Command.TheVariants.{Put};
ghost use Rattle.rules.specs.State.{taken_number};
ghost use Rattle.moves.specs.Moves.{Turns};

use fields::activities::put_register;
use moves::{Taken, go_on, unspent};

// PUT: the register becomes the value.
pub fn put(work: u64, state: &mut [u8], i: usize, v: u32) -> Taken
    ensures { Turns (Put v) state.old state.new work i (taken_number result) }
{
    unspent(state, work)?;
    put_register(state, i, v);
    go_on(state, i, 5)
}
