// A case run, and what came.
use program::refusal::Refusal;
use rules::state::State;
use std::io;

// Writes a word and a number.
fn field(rt: &impl Print, word: &str, number: u64) -> io::Result<()> {
    print!(rt; "{word}{number}")
}

// Writes how many calls and steps there were, the ready set (0 where all have ended), the activities and clocks made, and main's hand.
fn show(rt: &impl Print, table: &[u8], s: State, calls: usize) -> io::Result<()> {
    let main = s.acts[0];
    let ready = machine::ready(table, s).unwrap_or(0);
    field(rt, ": calls ", calls as u64)?;
    field(rt, " taken ", s.steps as u64)?;
    field(rt, " ready ", ready)?;
    field(rt, " activities ", s.activities as u64)?;
    field(rt, " clocks ", s.clocks as u64)?;
    field(rt, " hand ", main.register as u64)
}

// Runs a table with an order, and writes its name and what came, or the number for which the table is turned down.
pub fn report(
    rt: &impl Print,
    name: &str,
    table: &[u8],
    order: &[u8],
    answers: &mut [u8],
) -> io::Result<()> {
    let ran = machine::run(table, order, answers);
    print!(rt; "{name}")?;
    match ran.completion {
        Ok(()) => show(rt, table, ran.state, order.len())?,
        Err(Refusal::Buffer) => print!(rt; ": too few answers")?,
        Err(refusal) => field(rt, ": table ", refusal.number() as u64)?,
    }
    println!(rt; "")
}
