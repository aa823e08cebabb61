// Runs the cases that document 01 marks as run only, and prints what came.
#![tactic(auto)]

mod orders; // orders.rt: orders of calls
mod repeats; // repeats.rt: the tables of the longest runs
mod report; // report.rt: a case run, and what came

use orders::{downward, upward};
use repeats::repeats;
use report::report;
use std::io;

// "sixteen rounds of CLOCK 0, DROP 0 pass, seventeen give 10"
fn rounds(rt: &impl Print, zeros: &[u8], answers: &mut [u8]) -> io::Result<()> {
    report(
        rt,
        "16 rounds of CLOCK 0, DROP 0",
        &[2, 7, 16, 1, 0, 2, 0, 4, 0, 0],
        zeros,
        answers,
    )?;
    report(
        rt,
        "17 rounds of CLOCK 0, DROP 0",
        &[2, 7, 17, 1, 0, 2, 0, 4, 0, 0],
        zeros,
        answers,
    )
}

// "five activities offering 1 inside a finish, then READ, leave hand 5": each activity in turn, the last first, and one after the other.
fn offers(rt: &impl Print, answers: &mut [u8]) -> io::Result<()> {
    let table =
        b"\x03\x08\x00\x00\x06\x01\x0a\x00\x00\x05\x02\x00\x05\x02\x00\x05\x02\x00\x05\x02\x00\x05\x02\x00\x00\x0c\x01\x00\x00\x00\x09\x00\x00";
    let mut order = [0u8; 90];
    upward(&mut order);
    report(rt, "5 offers of 1, 0 to 5 in turn", table, &order, answers)?;
    downward(&mut order);
    report(rt, "5 offers of 1, 5 to 0 in turn", table, &order, answers)?;
    report(
        rt,
        "5 offers of 1, one after the other",
        table,
        b"\x00\x00\x00\x00\x00\x00\x00\x00\x01\x01\x01\x02\x02\x02\x03\x03\x03\x04\x04\x04\x05\x05\x05\x00\x00\x00",
        answers,
    )
}

// "REPEAT 255 of a body of REPEAT 254 of a bare END has work 65,282; 253 FETCH more are accepted, 254 give 12."
fn longest(rt: &impl Print, zeros: &[u8], answers: &mut [u8]) -> io::Result<()> {
    let mut bare = [0u8; 10];
    repeats(&mut bare);
    report(rt, "REPEAT 255 of REPEAT 254", &bare, zeros, answers)?;
    let mut most = [0u8; 516];
    repeats(&mut most);
    report(
        rt,
        "REPEAT 255 of REPEAT 254, 253 FETCH",
        &most,
        zeros,
        answers,
    )?;
    let mut over = [0u8; 518];
    repeats(&mut over);
    report(
        rt,
        "REPEAT 255 of REPEAT 254, 254 FETCH",
        &over,
        zeros,
        answers,
    )
}

fn main(rt: HostRuntime) -> io::Result<()> {
    let zeros = [0u8; 65535];
    let mut answers = [0u8; 65536];
    rounds(&rt, &zeros[..60], &mut answers)?;
    offers(&rt, &mut answers)?;
    longest(&rt, &zeros, &mut answers)
}
