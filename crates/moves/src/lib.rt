// What every command's function does in the lent bytes: number 17 where no step is left, a step counted, the place after a command, and a fault.
#![tactic(auto)]

ghost use Rattle.rules.specs.declared.state.Activity.{Activity};
ghost use Rattle.fields.specs.Lent.{Reads, WritesAct};
ghost use Rattle.rules.specs.Effects.{stopped};
ghost use Rattle.rules.specs.State.{taken_number};
ghost use Rattle.moves.specs.Moves.{Counts, GoesOn, Fails, unspent};

use fields::activities::{clear_own, depth_at, put_depth, put_status};
use fields::counts::{put_steps, steps_of};
use fields::frames::{offset_at, put_offset};
use program::refusal::Refusal;
use rules::state::{Fault, Status};

pub mod faults; // faults.rt: the fault of READ and RESET

// A turn's work, its lent bytes and its activity stay three parameters of each command's function: the functions of `fields` take the last two by themselves,
// so a struct of the three would only be taken apart again in every line.

// What a command's function answers: a step, with the fault that it meets, or why it is turned down.
pub type Taken = Result<Option<Fault>, Refusal>;

// Whether a step is left.
pub fn unspent(state: &[u8], work: u64) -> Result<(), Refusal>
    ensures { Reads (unspent work) state.now result }
{
    if work <= steps_of(state) as u64 {
        return Err(Refusal::Spent);
    }
    Ok(())
}

// A step is counted.
fn count(state: &mut [u8])
    ensures { Counts state.old state.new 0 }
{
    put_steps(state, steps_of(state).wrapping_add(1));
}

// A step is counted, and it meets no fault.
pub fn counted(state: &mut [u8]) -> Taken
    ensures { Counts state.old state.new (taken_number result) }
{
    count(state);
    Ok(None)
}

// The top body goes on after its command, so many bytes on.
pub fn go_on(state: &mut [u8], i: usize, size: u16) -> Taken
    ensures { GoesOn state.old state.new i size (taken_number result) }
{
    let at = (depth_at(state, i) as usize).saturating_sub(1);
    let offset = offset_at(state, i, at);
    put_offset(state, i, at, offset.wrapping_add(size));
    counted(state)
}

// The activity has ended: no bodies and no clocks.
pub fn stop(state: &mut [u8], i: usize, status: Status)
    ensures { WritesAct (λ (a : Activity). stopped a status) state.old state.new i }
{
    put_status(state, i, status);
    put_depth(state, i, 0);
    clear_own(state, i);
}

// A fault: the activity stops, and its step is counted.
pub fn fail(work: u64, state: &mut [u8], i: usize, f: Fault) -> Taken
    ensures { Fails f state.old state.new work i (taken_number result) }
{
    unspent(state, work)?;
    stop(state, i, Status::Faulted(f));
    count(state);
    Ok(Some(f))
}
