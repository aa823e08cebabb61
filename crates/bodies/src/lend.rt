// The faults of ASYNC.
ghost use Rattle.program.specs.Bodies.{Program};
ghost use Rattle.rules.specs.declared.state.Activity.{Activity};
ghost use Rattle.rules.specs.Tree.{in_own_finish};
ghost use Rattle.rules.specs.Faults.{async_fault};
ghost use Rattle.fields.specs.Lent.{ReadsAct};
ghost use Rattle.rules.specs.State.{fault_in};
ghost use Rattle.bodies.specs.Lends.{ReadsIn, lend_fault};

use fields::activities::depth_at;
use fields::frames::frame_at;
use fields::holds::hold_at;
use parts::holds::lends;
use places::accepted::Accepted;
use rules::state::{Fault, Registration};

// Whether the activity is in an own FINISH body.
fn in_own_finish(table: &Accepted<'_>, state: &[u8], i: usize) -> bool
    ensures { ReadsIn in_own_finish table.now.bytes.now state.now i result }
{
    let above = depth_at(state, i).saturating_sub(1) as usize;
    (0..above).any(|d| table.is_finish(frame_at(state, i, d)))
}

// F1 where the mask lends a clock that is not held, else F2 where it lends one that is quiesced.
fn lend_fault(state: &[u8], i: usize, m: u8) -> Option<Fault>
    ensures { ReadsAct (λ (a : Activity). lend_fault a m) state.now i (fault_in result) }
{
    let mut found = None;
    for k in 0..8 {
        if lends(m, k) {
            match hold_at(state, i, k).registration {
                Registration::Free => return Some(Fault::F1),
                Registration::Live => {}
                Registration::Quiesced => found = Some(Fault::F2),
            }
        }
    }
    found
}

// F3 comes before F1, and F1 before F2; who lends no clock meets none.
pub fn async_fault(table: &Accepted<'_>, state: &[u8], i: usize, m: u8) -> Option<Fault>
    ensures { ReadsIn (λ (p : Program) (a : Activity). async_fault p a m) table.now.bytes.now state.now i (fault_in result) }
{
    if m == 0 {
        return None;
    }
    if in_own_finish(table, state, i) {
        return Some(Fault::F3);
    }
    lend_fault(state, i, m)
}
