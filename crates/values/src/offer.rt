// OFFER.
ghost use Rattle.program.specs.declared.command.Command.TheVariants.{Offer};
ghost use Rattle.std.specs.Prelude.{◌<◌};
ghost use Rattle.rules.specs.State.{taken_number};
ghost use Rattle.moves.specs.Moves.{Turns};

use fields::accumulators::{accumulator_at, put_value};
use fields::activities::{name_at, register_at};
use moves::{Taken, fail, go_on, unspent};
use parts::reduction::reduce;
use rules::state::Fault;

// OFFER: the accumulator under the name is reduced with the register.
pub fn offer(work: u64, state: &mut [u8], i: usize, n: usize) -> Taken
    ensures { n < 8 → Turns (Offer n) state.old state.new work i (taken_number result) }
{
    let entry = name_at(state, i, n) as usize;
    if entry == 0 {
        return fail(work, state, i, Fault::F5);
    }
    unspent(state, work)?;
    let number = entry - 1;
    let c = accumulator_at(state, number);
    let register = register_at(state, i);
    put_value(state, number, reduce(c.operator, c.value, register));
    go_on(state, i, 2)
}
