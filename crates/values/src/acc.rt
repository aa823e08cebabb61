// ACC.
ghost use Rattle.std.specs.Prelude.{◌<◌};
ghost use Rattle.program.specs.declared.command.Command.TheVariants.{Acc};
ghost use Rattle.rules.specs.State.{taken_number};
ghost use Rattle.moves.specs.Moves.{Turns};

use fields::accumulators::put_accumulator;
use fields::activities::put_name;
use fields::counts::{accumulators_of, put_accumulators};
use moves::{Taken, go_on, unspent};
use parts::numbers::operator_of;
use parts::reduction::new_accumulator;
use program::refusal::Refusal;

// ACC: a new accumulator under the name.
pub fn acc(work: u64, state: &mut [u8], i: usize, n: usize, o: u8) -> Taken
    ensures { n < 8 → Turns (Acc n o) state.old state.new work i (taken_number result) }
{
    unspent(state, work)?;
    let made = accumulators_of(state);
    if 16 <= made {
        return Err(Refusal::Spent);
    }
    // No cast may lose bits; that i fits a byte is known only of the bytes of a state.
    let fresh = new_accumulator((i % 256) as u8, operator_of(o));
    put_accumulator(state, made as usize, fresh);
    put_accumulators(state, made + 1);
    put_name(state, i, n, made + 1);
    go_on(state, i, 3)
}
