// READ.
ghost use Rattle.std.specs.Prelude.{◌<◌};
ghost use Rattle.program.specs.declared.command.Command.TheVariants.{Read};
ghost use Rattle.rules.specs.State.{taken_number};
ghost use Rattle.moves.specs.Moves.{Turns};

use super::own::own_number;
use fields::accumulators::accumulator_at;
use fields::activities::put_register;
use moves::{Taken, fail, go_on, unspent};

// READ: the register becomes the value.
pub fn read(work: u64, state: &mut [u8], i: usize, n: usize) -> Taken
    ensures { n < 8 → Turns (Read n) state.old state.new work i (taken_number result) }
{
    let number = match own_number(state, i, n) {
        Ok(number) => number,
        Err(fault) => return fail(work, state, i, fault),
    };
    unspent(state, work)?;
    let c = accumulator_at(state, number);
    put_register(state, i, c.value);
    go_on(state, i, 2)
}
