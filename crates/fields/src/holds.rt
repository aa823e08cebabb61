// The clock names of an activity.
ghost use Rattle.std.specs.Prelude.{◌<◌};
ghost use Rattle.rules.specs.declared.state.Activity.{Activity};
ghost use Rattle.rules.specs.State.{hold};
ghost use Rattle.fields.specs.Lent.{ReadsAct, WritesAct, with_hold};

use super::bytes::get_own;
use encoding::holds::registration_of;
use encoding::part::Part;
use parts::empty::no_hold;
use rules::state::Hold;

// Field by field: of a state's bytes it is not known that the upper half of a phase is 0.
pub fn hold_at(state: &[u8], i: usize, k: usize) -> Hold
    ensures { k < 8 → ReadsAct (λ (a : Activity). hold a k) state.now i result }
{
    if 8 <= k {
        return no_hold();
    }
    let n = 16 + 8 * k;
    Hold {
        phase: get_own(state, i, n, 0),
        clock: get_own(state, i, n + 4, 0),
        registration: registration_of(get_own(state, i, n + 5, 0)),
    }
}

// Not by `put_own`, as `put_frame`.
pub fn put_hold(state: &mut [u8], i: usize, k: usize, h: Hold)
    ensures { k < 8 → WritesAct (λ (a : Activity). with_hold a k h) state.old state.new i }
{
    if state.len() == 13776 && i < 64 && k < 8 {
        let at = 480 + 208 * i + 8 * k;
        h.put(&mut state[at..at + 8]);
    }
}
