// How many activities one waits for at the command that it stands on. A breach comes before waiting; at END it is told too whether one inside has faulted.
ghost use Rattle.std.specs.Prelude.{◌<◌};
ghost use Rattle.waits.specs.Waits.{EndSees, NextAwaits, OwnAwaits, Awaits};

use super::behind::count_behind;
use super::inside::{Inside, inside_of};
use fields::activities::{depth_at, status_at};
use fields::frames::frame_at;
use moves::faults::read_fault;
use places::accepted::Accepted;
use program::command::Command;
use rules::state::Status;

// Those inside the FINISH body that ends here; nobody at another END.
pub fn end_inside(table: &Accepted<'_>, state: &[u8], i: usize) -> Inside
    ensures { EndSees table.now.bytes.now state.now i result }
{
    let depth = depth_at(state, i) as usize;
    if depth <= 1 {
        return Inside::default();
    }
    let below = frame_at(state, i, depth - 2);
    if table.is_finish(below) {
        let f = frame_at(state, i, depth - 1);
        return inside_of(state, i, f.first as usize);
    }
    Inside::default()
}

// Passing waits for those who are behind on an own clock.
pub fn next_awaits(state: &[u8], i: usize) -> u8
    ensures { NextAwaits state.now i result }
{
    match status_at(state, i) {
        Status::AtBarrier => count_behind(state, i),
        _ => 0,
    }
}

// READ and RESET, where they meet no fault, wait for the descendants who have not ended. That a name is below 8 is known of an activity that stands on the command, and
// not where the command is taken apart.
pub fn own_awaits(state: &[u8], i: usize, n: usize) -> u8
    ensures { n < 8 → OwnAwaits n state.now i result }
{
    match read_fault(state, i, n) {
        Some(_) => 0,
        None => inside_of(state, i, 0).unended,
    }
}

// How many it waits for. It is 0 where number 16 does not apply.
pub fn awaited_at(table: &Accepted<'_>, state: &[u8], i: usize, command: Command) -> u8
    ensures { Awaits table.now.bytes.now command state.now i result }
{
    match command {
        Command::End => end_inside(table, state, i).unended,
        Command::Next => next_awaits(state, i),
        Command::Read(n) | Command::Reset(n) => own_awaits(state, i, n as usize),
        _ => 0,
    }
}
