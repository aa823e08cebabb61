// The accumulators.
ghost use Rattle.std.specs.Prelude.{◌<◌};
ghost use Rattle.rules.specs.declared.state.State.{State};
ghost use Rattle.rules.specs.State.{accumulator};
ghost use Rattle.rules.specs.Effects.{with_value};
ghost use Rattle.fields.specs.Lent.{Reads, Writes, with_acc};

use super::bytes::{get, put};
use encoding::part::Part;
use parts::empty::no_accumulator;
use rules::state::Accumulator;

pub fn accumulator_at(state: &[u8], n: usize) -> Accumulator
    ensures { n < 16 → Reads (λ (s : State). accumulator s n) state.now result }
{
    if 16 <= n {
        return no_accumulator();
    }
    get(state, 80 + 24 * n, no_accumulator())
}

pub fn put_value(state: &mut [u8], n: usize, v: u32)
    ensures { n < 16 → Writes (λ (s : State). with_acc s n (with_value (accumulator s n) v)) state.old state.new }
{
    if 16 <= n {
        return;
    }
    put(state, 80 + 24 * n, v);
}

// Not by `put_own`, as `put_frame`.
pub fn put_accumulator(state: &mut [u8], n: usize, a: Accumulator)
    ensures { n < 16 → Writes (λ (s : State). with_acc s n a) state.old state.new }
{
    if state.len() == 13776 && n < 16 {
        let at = 80 + 24 * n;
        a.put(&mut state[at..at + 24]);
    }
}
