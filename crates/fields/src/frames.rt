// The bodies on the stack of an activity.
ghost use Rattle.std.specs.Prelude.{◌<◌};
ghost use Rattle.rules.specs.declared.state.Activity.{Activity};
ghost use Rattle.rules.specs.State.{frame};
ghost use Rattle.fields.specs.Lent.{ReadsAct, WritesAct, with_frame, onward};

use super::bytes::{get_own, put_own};
use encoding::part::Part;
use parts::empty::no_frame;
use rules::state::Frame;

pub fn frame_at(state: &[u8], i: usize, d: usize) -> Frame
    ensures { d < 16 → ReadsAct (λ (a : Activity). frame a d) state.now i result }
{
    if 16 <= d {
        return no_frame();
    }
    get_own(state, i, 80 + 8 * d, no_frame())
}

// Not by `put_own`, whose promise at a generic type does not say that the numbers of the value fit their types; `put_hold` and `put_accumulator` likewise.
pub fn put_frame(state: &mut [u8], i: usize, d: usize, f: Frame)
    ensures { d < 16 → WritesAct (λ (a : Activity). with_frame a d f) state.old state.new i }
{
    if state.len() == 13776 && i < 64 && d < 16 {
        let at = 544 + 208 * i + 8 * d;
        f.put(&mut state[at..at + 8]);
    }
}

pub fn offset_at(state: &[u8], i: usize, d: usize) -> u16
    ensures { d < 16 → ReadsAct (λ (a : Activity). (frame a d).offset) state.now i result }
{
    if 16 <= d {
        return 0;
    }
    get_own(state, i, 80 + 8 * d, 0)
}

pub fn put_offset(state: &mut [u8], i: usize, d: usize, offset: u16)
    ensures { d < 16 → WritesAct (λ (a : Activity). with_frame a d (onward (frame a d) offset)) state.old state.new i }
{
    if 16 <= d {
        return;
    }
    put_own(state, i, 80 + 8 * d, offset);
}
