// The machine's calls by value: start, one step, the ready set, the standing sheet and whole runs. Each is the call in place, in bytes of its own: memory is fixed.
#![tactic(auto)]

ghost use Rattle.std.specs.Prelude.{◌≡◌};
ghost use Rattle.rules.specs.Steps.{base, start, step, ready, registrations, registrations_number};
ghost use Rattle.machine.specs.Ran.{Runs, Traces};
ghost use Rattle.machine.specs.Numbers.{answer_of};

use after::activity_in;
use encoding::accumulators::accumulators_at;
use encoding::numbers::{cells_at, number};
use encoding::{decode, encode};
use fields::activities::status_at;
use moves::Taken;
use parts::empty::{start_state, zero_state};
use program::command::wide;
use program::table::read_table;
use rules::answer::{Answer, Ran, Ready, Stepped};
use rules::state::{State, Status};
use sheet::sheet_of;
use wellformed::check_state;

mod sheet; // sheet.rt: the standing sheet by value
mod after; // after.rt: the entries that a step can have changed

// The start state of a table: numbers 1 to 12.
pub fn start(table: &[u8]) -> Stepped
    ensures { result ≡ start base table.now }
{
    match read_table(table) {
        Ok(_) => Stepped {
            answer: Ok(Status::Running),
            state: start_state(),
        },
        Err(refusal) => Stepped {
            answer: Err(refusal),
            state: zero_state(),
        },
    }
}

// The answer of a step that the call in place told so, after which the activity stands so.
fn answer_of(told: Taken, status: Status) -> Answer
    ensures { result ≡ answer_of told status }
{
    match told {
        Ok(_) => Ok(status),
        Err(refusal) => Err(refusal),
    }
}

// A step of an activity, whichever the host picks: numbers 1 to 17. A step can have changed the entries of two activities, and what is no activity.
pub fn step(table: &[u8], s: State, activity: usize) -> Stepped
    ensures { result ≡ step base table.now s activity }
{
    let own = activity.min(63);
    let free = wide(s.activities).min(63);
    let mut acts = s.acts;
    let mut bytes = [0u8; 13776];
    encode(s, &mut bytes);
    let told = calls::step(table, &mut bytes, activity);
    let status = status_at(&bytes, activity);
    acts[own] = activity_in(&bytes, own);
    acts[free] = activity_in(&bytes, free);
    let steps = number(&bytes[4..8]) as u16;
    Stepped {
        answer: answer_of(told, status),
        state: State {
            cells: cells_at(&bytes[16..80]),
            acts,
            accs: accumulators_at(&bytes[80..464]),
            steps,
            activities: bytes[1],
            clocks: bytes[2],
            accumulators: bytes[3],
        },
    }
}

// Who can step: numbers 1 to 13.
pub fn ready(table: &[u8], s: State) -> Ready
    ensures { result ≡ ready base table.now s }
{
    let mut bytes = [0u8; 13776];
    encode(s, &mut bytes);
    calls::ready(table, &bytes)
}

// The standing sheet: numbers 1 to 13. An array of arrays by value, and its number beside it: the sheet of a call that is turned down is one of zeros.
pub fn registrations(table: &[u8], s: State, number: &mut u8) -> [[u8; 16]; 64]
    ensures { (result ≡ registrations base table.now s) × (number.new ≡ registrations_number base table.now s) }
{
    let mut bytes = [0u8; 13776];
    encode(s, &mut bytes);
    match check_state(table, &bytes) {
        Ok(_) => {
            *number = 0;
            sheet_of(&bytes)
        }
        Err(unfit) => {
            *number = unfit.refusal().number();
            [[0u8; 16]; 64]
        }
    }
}

// A whole run: the table is read once, and a step is taken for each byte of the order. Its answer's number goes into the buffer.
pub fn run(table: &[u8], order: &[u8], answers: &mut [u8]) -> Ran
    ensures { Runs table.now order.now answers.old answers.new result }
{
    let mut counts = [0u8; 1];
    trace(table, order, answers, &mut counts)
}

// The same, and how many each step waits for into a second buffer, as far as it reaches.
pub fn trace(table: &[u8], order: &[u8], answers: &mut [u8], counts: &mut [u8]) -> Ran
    ensures { Traces table.now order.now answers.old answers.new counts.old counts.new result }
{
    let mut bytes = [0u8; 13776];
    match calls::trace(table, order, answers, counts, &mut bytes) {
        Ok(()) => Ran {
            completion: Ok(()),
            state: decode(&bytes).unwrap(),
        },
        Err(refusal) => Ran {
            completion: Err(refusal),
            state: zero_state(),
        },
    }
}
