// The ready set.
ghost use Rattle.turns.specs.Turns.{Readies};

use super::look::can_step;
use fields::counts::activities_of;
use places::accepted::Accepted;

// Bit i for activity i, set where 14 to 16 do not apply.
pub fn ready_set(table: &Accepted<'_>, state: &[u8]) -> u64
    ensures { Readies table.now.bytes.now state.now result }
{
    let made = activities_of(state) as usize;
    if 64 < made {
        return 0;
    }
    let mut set: u64 = 0;
    for i in 0..made {
        if can_step(table, state, i) {
            set |= 1u64 << i;
        }
    }
    set
}
