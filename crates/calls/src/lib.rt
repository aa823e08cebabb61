// The machine's calls over lent bytes: a state is a buffer of 13,776 bytes, laid out as in docs/STATE-BYTES.md, and each call works in it.
// The table's number 1 to 12 comes first; bytes that encode no state give 13; then a buffer of another length than the call needs gives 255.
#![tactic(auto)]

ghost use Rattle.std.specs.Prelude.{◌≡◌, length, Ok};
ghost use Rattle.std.specs.Result.{result_unwrap_or};
ghost use Rattle.program.specs.Refusal.{told};
ghost use Rattle.program.specs.Table.{work_limit, table_of};
ghost use Rattle.rules.specs.State.{taken_number};
ghost use Rattle.calls.specs.Calls.{start_number, start_bytes, step_number, step_bytes, ready_number, ready_set, awaits_number, awaits_count, sheet_number, sheet_bytes, run_number, run_answers, run_bytes, trace_counts};

use begin::{put_none, put_start};
use moves::Taken;
use places::accepted::Accepted;
use program::refusal::Refusal;
use program::table::{Table, read_table};
use turns::follow::follow;
use turns::look::look;
use turns::ready::ready_set;
use turns::turn;
use wellformed::check_state;

mod begin; // begin.rt: the first states, written in place
mod sheet; // sheet.rt: the standing sheet as bytes

// A table with what was read of it, as the turns take it.
fn accepted<'a>(table: &'a [u8], read: &'a Table) -> Accepted<'a>
    requires { table_of work_limit table.now ≡ Ok read.now }
    ensures { result.bytes.now ≡ table.now }
{
    Accepted {
        bytes: table,
        starts: &read.layout.starts,
        work: read.work,
    }
}

// The start state of a table into the buffer, or the state of zeros for a table that is turned down.
pub fn start(table: &[u8], state: &mut [u8]) -> Result<(), Refusal>
    ensures { (told result ≡ start_number table.now state.old) × (state.new ≡ start_bytes table.now state.old) }
{
    // No `?`: a refused start leaves a state too.
    if let Err(refusal) = read_table(table) {
        put_none(state);
        return Err(refusal);
    }
    if state.len() != 13776 {
        return Err(Refusal::Buffer);
    }
    put_start(state);
    Ok(())
}

// A step of the state in the buffer, by an activity that the host picks. A refused step leaves the bytes.
pub fn step(table: &[u8], state: &mut [u8], activity: usize) -> Taken
    ensures { (taken_number result ≡ step_number table.now state.old activity) × (state.new ≡ step_bytes table.now state.old activity) }
{
    let read = check_state(table, state)?;
    turn(&accepted(table, &read), state, activity).answer
}

// Who can step, bit i for activity i.
pub fn ready(table: &[u8], state: &[u8]) -> Result<u64, Refusal>
    ensures { (told result ≡ ready_number table.now state.now) × (result_unwrap_or result 0 ≡ ready_set table.now state.now) }
{
    let read = check_state(table, state)?;
    Ok(ready_set(&accepted(table, &read), state))
}

// How many activities an activity waits for.
pub fn awaited(table: &[u8], state: &[u8], activity: usize) -> Result<u8, Refusal>
    ensures { (told result ≡ awaits_number table.now state.now activity) × (result_unwrap_or result 0 ≡ awaits_count table.now state.now activity) }
{
    let read = check_state(table, state)?;
    let seen = look(&accepted(table, &read), state, activity);
    // 16 is no number of this call.
    if seen.awaited == 0 {
        seen.answer?;
    }
    Ok(seen.awaited)
}

// The standing sheet of the state in the buffer, 1,024 bytes, row by row. The sheet of a refused call is zeros; another room for it stays as it was.
pub fn registrations(table: &[u8], state: &[u8], sheet: &mut [u8]) -> Result<(), Refusal>
    ensures { (told result ≡ sheet_number table.now state.now sheet.old) × (sheet.new ≡ sheet_bytes table.now state.now sheet.old) }
{
    // No `?`: a refused call leaves a sheet too.
    if let Err(unfit) = check_state(table, state) {
        sheet::put_none(sheet);
        return Err(unfit.refusal());
    }
    if sheet.len() != 1024 {
        return Err(Refusal::Buffer);
    }
    sheet::put_rows(state, sheet);
    Ok(())
}

// A whole run from the start state: an answer for each step of the order, and the state after it. A refused run leaves both buffers as they were.
pub fn run(table: &[u8], order: &[u8], answers: &mut [u8], state: &mut [u8]) -> Result<(), Refusal>
    ensures value { told result ≡ run_number table.now order.now (length answers.old) state.old }
    ensures answers_after { answers.new ≡ run_answers table.now order.now answers.old state.old }
    ensures state_after { state.new ≡ run_bytes table.now order.now (length answers.old) state.old }
{
    trace(table, order, answers, &mut [], state)
}

// The same, and how many each step waits for, as far as the buffer for it reaches: two lent buffers, as C has them. A refused run leaves the three as they were.
pub fn trace(
    table: &[u8],
    order: &[u8],
    answers: &mut [u8],
    counts: &mut [u8],
    state: &mut [u8],
) -> Result<(), Refusal>
    ensures value { told result ≡ run_number table.now order.now (length answers.old) state.old }
    ensures answers_after { answers.new ≡ run_answers table.now order.now answers.old state.old }
    ensures counts_after { counts.new ≡ trace_counts table.now order.now (length answers.old) counts.old state.old }
    ensures state_after { state.new ≡ run_bytes table.now order.now (length answers.old) state.old }
{
    let read = read_table(table)?;
    if state.len() != 13776 || answers.len() < order.len() {
        return Err(Refusal::Buffer);
    }
    put_start(state);
    follow(&accepted(table, &read), order, answers, counts, state);
    Ok(())
}
