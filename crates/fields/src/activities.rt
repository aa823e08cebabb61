// An activity: its register, status, spawner, depth and accumulator names.
ghost use Rattle.std.specs.Prelude.{◌<◌};
ghost use Rattle.rules.specs.declared.state.Activity.{Activity};
ghost use Rattle.rules.specs.State.{bound};
ghost use Rattle.rules.specs.Effects.{with_register};
ghost use Rattle.fields.specs.Lent.{ReadsAct, WritesAct, with_status, with_depth, with_spawner, with_name, cleared};

use super::bytes::{get_own, put_own};
use encoding::activities::{fault_byte, status_byte, status_of};
use encoding::numbers::put_zeros;
use rules::state::Status;

pub fn register_at(state: &[u8], i: usize) -> u32
    ensures { ReadsAct (λ (a : Activity). a.register) state.now i result }
{
    get_own(state, i, 0, 0)
}

pub fn put_register(state: &mut [u8], i: usize, v: u32)
    ensures { WritesAct (λ (a : Activity). with_register a v) state.old state.new i }
{
    put_own(state, i, 0, v);
}

pub fn status_at(state: &[u8], i: usize) -> Status
    ensures { ReadsAct (λ (a : Activity). a.status) state.now i result }
{
    status_of(get_own(state, i, 4, 0), get_own(state, i, 5, 0))
}

pub fn put_status(state: &mut [u8], i: usize, status: Status)
    ensures { WritesAct (λ (a : Activity). with_status a status) state.old state.new i }
{
    let v = u16::from_le_bytes([status_byte(status), fault_byte(status)]);
    put_own(state, i, 4, v);
}

pub fn spawner_at(state: &[u8], i: usize) -> u8
    ensures { ReadsAct (λ (a : Activity). a.spawner) state.now i result }
{
    get_own(state, i, 6, 0)
}

pub fn put_spawner(state: &mut [u8], i: usize, w: u8)
    ensures { WritesAct (λ (a : Activity). with_spawner a w) state.old state.new i }
{
    put_own(state, i, 6, w);
}

pub fn depth_at(state: &[u8], i: usize) -> u8
    ensures { ReadsAct (λ (a : Activity). a.depth) state.now i result }
{
    get_own(state, i, 7, 0)
}

pub fn put_depth(state: &mut [u8], i: usize, d: u8)
    ensures { WritesAct (λ (a : Activity). with_depth a d) state.old state.new i }
{
    put_own(state, i, 7, d);
}

pub fn name_at(state: &[u8], i: usize, n: usize) -> u8
    ensures { n < 8 → ReadsAct (λ (a : Activity). bound a n) state.now i result }
{
    if 8 <= n {
        return 0;
    }
    get_own(state, i, 8 + n, 0)
}

pub fn put_name(state: &mut [u8], i: usize, n: usize, v: u8)
    ensures { n < 8 → WritesAct (λ (a : Activity). with_name a n v) state.old state.new i }
{
    if 8 <= n {
        return;
    }
    put_own(state, i, 8 + n, v);
}

// No clocks and no bodies.
pub fn clear_own(state: &mut [u8], i: usize)
    ensures { WritesAct cleared state.old state.new i }
{
    if state.len() == 13776 && i < 64 {
        let at = 480 + 208 * i;
        put_zeros(&mut state[at..at + 192]);
    }
}
