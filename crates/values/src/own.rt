// The accumulator of READ and RESET.
ghost use Rattle.std.specs.Prelude.{◌<◌};
ghost use Rattle.values.specs.Owned.{Owns};

use fields::activities::name_at;
use moves::faults::read_fault;
use rules::state::Fault;

// The number of the accumulator under a name, or the fault of reading it.
pub(crate) fn own_number(state: &[u8], i: usize, n: usize) -> Result<usize, Fault>
    ensures { n < 8 → Owns state.now i n result }
{
    match read_fault(state, i, n) {
        Some(fault) => Err(fault),
        None => Ok((name_at(state, i, n) as usize).saturating_sub(1)),
    }
}
