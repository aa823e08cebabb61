// Reads tables built here, and prints the name of each with its number, and its counts where it is accepted.
#![tactic(auto)]

mod build; // build.rt: tables made of commands

use build::{nested, one_body, repeats};
use program::table::read_table;
use std::io;

// Writes a table's name and its number, and its counts where that is 0.
fn report(rt: &impl Print, name: &str, table: &[u8]) -> io::Result<()> {
    match read_table(table) {
        Ok(found) => println!(rt;
            "{name} 0 work {} activities {} clocks {} accumulators {}",
            found.work, found.activities, found.clocks, found.accumulators
        ),
        Err(refusal) => println!(rt; "{name} {}", refusal.number()),
    }
}

// A table for each of the numbers that few bytes show.
fn short_tables(rt: &impl Print) -> io::Result<()> {
    report(rt, "one byte", &[1])?;
    report(rt, "no bodies", &[0, 0])?;
    report(rt, "CHOOSE without its operand", &[1, 0x11])?;
    report(rt, "byte 12", &[1, 0x12])?;
    report(rt, "CHOOSE of its own body", &[1, 0x11, 0, 0])?;
    report(rt, "CHOOSE after ATOM 1", &[2, 0x10, 1, 0x11, 1, 0, 0])?;
    report(rt, "no END", &[1, 1])?;
    report(rt, "CLOCK 8", &[1, 2, 8, 0])?;
    report(rt, "FINISH of its own body", &[1, 6, 0, 0])?;
    report(rt, "NEXT after ATOM 1", &[1, 0x10, 1, 1, 0])?;
    report(rt, "a byte more", &[1, 0, 0])?;
    report(rt, "64 ASYNC", &[3, 7, 0x40, 1, 0, 5, 2, 0, 0, 0])?;
    report(rt, "63 ASYNC", &[3, 7, 0x3F, 1, 0, 5, 2, 0, 0, 0])
}

// The limits of the table's bytes, of clocks and of accumulators.
fn limits(rt: &impl Print) -> io::Result<()> {
    report(rt, "2,048 bytes", one_body(&[1], 2046).bytes())?;
    report(rt, "2,049 bytes", one_body(&[1], 2047).bytes())?;
    let round = [2, 0, 4, 0];
    report(
        rt,
        "16 rounds of CLOCK 0, DROP 0",
        one_body(&round, 16).bytes(),
    )?;
    report(
        rt,
        "17 rounds of CLOCK 0, DROP 0",
        one_body(&round, 17).bytes(),
    )?;
    report(rt, "16 ACC 0 0", one_body(&[8, 0, 0], 16).bytes())?;
    report(rt, "17 ACC 0 0", one_body(&[8, 0, 0], 17).bytes())
}

fn main(rt: HostRuntime) -> io::Result<()> {
    short_tables(&rt)?;
    limits(&rt)?;
    report(&rt, "REPEAT 255 of REPEAT 254", repeats(0).bytes())?;
    report(
        &rt,
        "REPEAT 255 of REPEAT 254, 253 FETCH",
        repeats(253).bytes(),
    )?;
    report(
        &rt,
        "REPEAT 255 of REPEAT 254, 254 FETCH",
        repeats(254).bytes(),
    )?;
    report(&rt, "16 bodies of 60 FINISH", nested(&[6], 60).bytes())?;
    report(&rt, "15 bodies of 40 REPEAT 0", nested(&[7, 0], 40).bytes())
}
