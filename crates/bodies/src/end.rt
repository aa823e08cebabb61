// END.
ghost use Rattle.std.specs.Prelude.{◌<◌};
ghost use Rattle.bodies.specs.Pops.{Pops, Reruns, Ends};
ghost use Rattle.rules.specs.State.{taken_number};

use fields::activities::{depth_at, put_depth};
use fields::frames::{frame_at, put_frame};
use moves::{Taken, counted, fail, go_on, stop, unspent};
use parts::empty::no_frame;
use rules::state::{Fault, Frame, Status};

// The top body is gone, and the one below goes on after its command, so many bytes on.
fn pop(state: &mut [u8], i: usize, depth: u8, size: u16) -> Taken
    ensures { Pops state.old state.new i depth size (taken_number result) }
{
    if depth == 0 {
        return Ok(None);
    }
    let less = depth - 1;
    put_frame(state, i, less as usize, no_frame());
    put_depth(state, i, less);
    go_on(state, i, size)
}

// The body runs again from its first command, with one run less left.
fn again(state: &mut [u8], i: usize, at: usize, f: Frame) -> Taken
    requires { 1 < f.runs }
    ensures { Reruns f state.old state.new i at (taken_number result) }
{
    let rerun = Frame {
        offset: 0,
        runs: f.runs - 1,
        ..f
    };
    put_frame(state, i, at, rerun);
    counted(state)
}

// END: of the lowest body it ends the activity; a body with runs left runs again; any other is left. A body in its last run is a REPEAT's, which is 3 bytes; one without
// runs is that of a FINISH or a CHOOSE, which are 2. Where one inside the FINISH body that ends has faulted, the fault is passed on.
pub fn end(work: u64, state: &mut [u8], i: usize, faulted: bool) -> Taken
    ensures { Ends faulted state.old state.new work i (taken_number result) }
{
    if faulted {
        return fail(work, state, i, Fault::F8);
    }
    unspent(state, work)?;
    let depth = depth_at(state, i);
    if depth <= 1 {
        stop(state, i, Status::Ended);
        return counted(state);
    }
    let at = depth as usize - 1;
    let f = frame_at(state, i, at);
    match f.runs {
        0 => pop(state, i, depth, 2),
        1 => pop(state, i, depth, 3),
        _ => again(state, i, at, f),
    }
}
