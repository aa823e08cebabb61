// Who can step, and how many an activity waits for: numbers 14 to 16.
ghost use Rattle.turns.specs.Turns.{Stands, Looks, CanStep};

use super::{Reply, alone};
use fields::activities::{depth_at, status_at};
use fields::counts::activities_of;
use fields::frames::frame_at;
use parts::checks::is_ended;
use places::accepted::Accepted;
use program::command::Command;
use program::refusal::Refusal;
use waits::waiting::awaited_at;

// The command that activity i stands on, or 14 or 15. Who has neither ended nor a body is in no well-formed state. Compiled in by a
// mark: as a call it hands the command over through memory.
#[inline(always)]
pub(crate) fn standing_on(table: &Accepted<'_>, state: &[u8], i: usize) -> Result<Command, Refusal>
    ensures { Stands table.now.bytes.now state.now i result }
{
    let made = activities_of(state) as usize;
    if made <= i {
        return Err(Refusal::Unspawned);
    }
    if is_ended(status_at(state, i)) {
        return Err(Refusal::Ended);
    }
    let depth = depth_at(state, i) as usize;
    if depth == 0 {
        return Err(Refusal::Ended);
    }
    Ok(table.command_at(frame_at(state, i, depth - 1)))
}

// The number 14 to 16 for which a turn of activity i would be turned down, and how many it waits for.
pub fn look(table: &Accepted<'_>, state: &[u8], i: usize) -> Reply
    ensures { Looks table.now.bytes.now state.now i result }
{
    let command = match standing_on(table, state, i) {
        Ok(command) => command,
        Err(refusal) => return alone(Err(refusal)),
    };
    let awaited = awaited_at(table, state, i, command);
    if awaited == 0 {
        return alone(Ok(None));
    }
    Reply {
        answer: Err(Refusal::Waits),
        awaited,
    }
}

// Whether 14 to 16 do not apply.
pub fn can_step(table: &Accepted<'_>, state: &[u8], i: usize) -> bool
    ensures { CanStep table.now.bytes.now state.now i result }
{
    let seen = look(table, state, i);
    seen.answer.is_ok()
}
