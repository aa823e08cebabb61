// The machine's calls under their C names, for a host in C or Rust; `calls` has what each answers and leaves. C is told a number, and what else a call answers goes
// through a lent place.
#![tactic(auto)]

ghost use Rattle.std.specs.Prelude.{◌≡◌, length};
ghost use Rattle.calls.specs.Calls.{start_number, start_bytes, step_number, step_bytes, ready_number, ready_set, awaits_number, awaits_count, sheet_number, sheet_bytes, run_number, run_answers, run_bytes};

mod number; // number.rt: a call's answer as a number
mod lists; // lists.rt: tables from lists of commands, and back

use number::number_of;

// The start state of a table into the buffer, or the state of zeros for a table that is turned down.
#[unsafe(no_mangle)]
pub extern "C" fn stepmachine_start(table: &[u8], state: &mut [u8]) -> u8
    ensures { (result ≡ start_number table.now state.old) × (state.new ≡ start_bytes table.now state.old) }
{
    number_of(calls::start(table, state))
}

// A step of the state in the buffer, by an activity that the host picks. A refused step leaves the bytes.
#[unsafe(no_mangle)]
pub extern "C" fn stepmachine_step(table: &[u8], state: &mut [u8], activity: usize) -> u8
    ensures { (result ≡ step_number table.now state.old activity) × (state.new ≡ step_bytes table.now state.old activity) }
{
    turns::number(calls::step(table, state, activity))
}

// Who can step, bit i for activity i. The set of a refused call is 0.
#[unsafe(no_mangle)]
pub extern "C" fn stepmachine_ready(table: &[u8], state: &[u8], set: &mut u64) -> u8
    ensures { (result ≡ ready_number table.now state.now) × (set.new ≡ ready_set table.now state.now) }
{
    let ready = calls::ready(table, state);
    *set = ready.unwrap_or(0);
    number_of(ready)
}

// How many activities an activity waits for. The count of a refused call is 0.
#[unsafe(no_mangle)]
pub extern "C" fn stepmachine_awaited(
    table: &[u8],
    state: &[u8],
    activity: usize,
    count: &mut u8,
) -> u8
    ensures { (result ≡ awaits_number table.now state.now activity) × (count.new ≡ awaits_count table.now state.now activity) }
{
    let awaited = calls::awaited(table, state, activity);
    *count = awaited.unwrap_or(0);
    number_of(awaited)
}

// The standing sheet of the state in the buffer, 1,024 bytes, row by row. The sheet of a refused call is zeros; another room for it stays as it was.
#[unsafe(no_mangle)]
pub extern "C" fn stepmachine_registrations(table: &[u8], state: &[u8], sheet: &mut [u8]) -> u8
    ensures { (result ≡ sheet_number table.now state.now sheet.old) × (sheet.new ≡ sheet_bytes table.now state.now sheet.old) }
{
    number_of(calls::registrations(table, state, sheet))
}

// A whole run from the start state: an answer for each step of the order, and the state after it. A refused run leaves both buffers as they were.
#[unsafe(no_mangle)]
pub extern "C" fn stepmachine_run(
    table: &[u8],
    order: &[u8],
    answers: &mut [u8],
    state: &mut [u8],
) -> u8
    ensures value { result ≡ run_number table.now order.now (length answers.old) state.old }
    ensures answers_after { answers.new ≡ run_answers table.now order.now answers.old state.old }
    ensures state_after { state.new ≡ run_bytes table.now order.now (length answers.old) state.old }
{
    number_of(calls::run(table, order, answers, state))
}
