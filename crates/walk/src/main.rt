// Walks through a job: reads the files JOB and ORDER, and prints a line for each byte of the order and a total.
#![tactic(auto)]

ghost use Rattle.std.specs.Prelude.{◌≤◌, length, OnOk};
ghost use Rattle.std.specs.Io.KnownBytes.{Appends};
ghost use Rattle.walk.specs.Walked.{walked};

mod files; // files.rt: a file read whole
mod counts; // counts.rt: the activities ended, and the total of a state
mod print; // print.rt: text handed on, a page at a time

use counts::put_ending;
use lines::{FitText, Steps, Text};
use print::{print_lines, send};
use program::table::read_table;
use std::io;
use std::io::Write;

// Writes the number for which the table is turned down, or the walk, as specs/Walked.antt says.
fn walk<W: Write>(
    to: &mut W,
    job: &[u8],
    order: &[u8],
    out: &mut [u8],
    answers: &mut [u8],
    counts: &mut [u8],
) -> io::Result<()>
    requires order_in_bounds { length order.now ≤ length answers.old }
    requires order_in_bounds_2 { length order.now ≤ length counts.old }
    requires in_bounds { 128 ≤ length out.old }
    ensures { OnOk result (Appends (W.contents to.old) (W.contents to.new) (walked job.now order.now)) }
{
    let found = match read_table(job) {
        Ok(found) => found,
        Err(refusal) => {
            let mut line = FitText::new(out);
            line.refused(refusal.number() as u64);
            return send(to, line.text());
        }
    };
    let ran = machine::trace(job, order, answers, counts);
    let mut header = FitText::new(out);
    header.header();
    send(to, header.text())?;
    let steps = Steps {
        order,
        answers,
        awaited: counts,
    };
    print_lines(to, out, steps)?;
    let mut total = Text::new(out);
    put_ending(&mut total, found.work, &ran.state);
    send(to, FitText::of(total).text())
}

// A table has at most 2,048 bytes, so one byte more is enough (proofs/Enough.antt). Of the order, 65,535 bytes count.
fn main(rt: HostRuntime) -> io::Result<()> {
    let mut job = [0u8; 2049];
    let mut order = [0u8; 65535];
    let mut out = [0u8; 65536];
    let mut answers = [0u8; 65536];
    let mut counts = [0u8; 65536];
    let table = files::read_file(&rt, "JOB", &mut job);
    let steps = files::read_file(&rt, "ORDER", &mut order);
    let mut to = io::writer(&rt);
    walk(
        &mut to,
        &job[..table],
        &order[..steps],
        &mut out,
        &mut answers,
        &mut counts,
    )
}
