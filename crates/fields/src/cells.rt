// The cells.
ghost use Rattle.std.specs.Prelude.{◌<◌, get_or};
ghost use Rattle.rules.specs.declared.state.State.{State};
ghost use Rattle.fields.specs.Lent.{Reads, Writes, with_cell};

use super::bytes::{get, put};

pub fn cell_at(state: &[u8], d: usize) -> u32
    ensures { d < 16 → Reads (λ (s : State). get_or s.cells d 0) state.now result }
{
    if 16 <= d {
        return 0;
    }
    get(state, 16 + 4 * d, 0)
}

pub fn put_cell(state: &mut [u8], d: usize, v: u32)
    ensures { d < 16 → Writes (λ (s : State). with_cell s d v) state.old state.new }
{
    if 16 <= d {
        return;
    }
    put(state, 16 + 4 * d, v);
}
