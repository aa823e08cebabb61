// RESET.
ghost use Rattle.std.specs.Prelude.{◌<◌};
ghost use Rattle.program.specs.declared.command.Command.TheVariants.{Reset};
ghost use Rattle.rules.specs.State.{taken_number};
ghost use Rattle.moves.specs.Moves.{Turns};

use super::own::own_number;
use fields::accumulators::put_value;
use fields::activities::register_at;
use moves::{Taken, fail, go_on, unspent};

// RESET: the value becomes the register.
pub fn reset(work: u64, state: &mut [u8], i: usize, n: usize) -> Taken
    ensures { n < 8 → Turns (Reset n) state.old state.new work i (taken_number result) }
{
    let number = match own_number(state, i, n) {
        Ok(number) => number,
        Err(fault) => return fail(work, state, i, fault),
    };
    unspent(state, work)?;
    let register = register_at(state, i);
    put_value(state, number, register);
    go_on(state, i, 2)
}
