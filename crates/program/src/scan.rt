// A whole table: numbers 1 to 8, where each body begins, and the place of every command.
ghost use Rattle.std.specs.Prelude.{◌≡◌, ◌+◌, ◌<◌, ◌≤◌, length, replicate};
ghost use Rattle.program.specs.Reading.{readings};
ghost use Rattle.program.specs.Scan.{name_fits, placing, left_after, scan, layout_of};
ghost use Rattle.program.specs.Places.{places_of};
ghost use Rattle.program.specs.Refusal.{answered};
ghost use Rattle.program.specs.Inner.Scanned.{opening, extent_of, mark_of, MarksBody};

use super::command::{Command, held, is_end, named, names, uses_cell, wide};
use super::reading::{Whole, read};
use super::refusal::Refusal;

// The number of bodies, and the byte at which each begins: in fixed memory, with 0 past the last.
#[derive(Clone, Copy, Debug, PartialEq, Eq)]
pub struct Layout {
    pub bodies: usize,
    pub starts: [usize; 16],
}

// Whether a command of a body names a later one, where it names one.
#[tactic(auto, unfolding(crate::specs::Scan::name_fits))]
fn name_fits(bodies: usize, body: usize, command: Command) -> bool
    ensures { result ≡ name_fits bodies body command }
{
    if !names(command) {
        return true;
    }
    let b = named(command);
    body < b && b < bodies
}

// Numbers 6 and 7 in this order, where `left` commands still belong to an ATOM.
#[tactic(auto, unfolding(crate::specs::Scan::placing, crate::specs::Scan::atom_fits))]
fn placing(bodies: usize, body: usize, left: usize, command: Command) -> Result<(), Refusal>
    ensures { result ≡ answered (placing bodies body left command) tt }
{
    if !name_fits(bodies, body, command) {
        return Err(Refusal::Named);
    }
    if left != 0 && !uses_cell(command) {
        return Err(Refusal::Atom);
    }
    Ok(())
}

// How many commands belong to an ATOM after a command.
#[tactic(auto, unfolding(crate::specs::Scan::left_after))]
fn left_after(left: usize, command: Command) -> usize
    ensures { result ≡ left_after left command }
{
    if left == 0 { held(command) } else { left - 1 }
}

// The mark of a command of a body: 0 where it belongs to an ATOM.
fn mark(body: usize, left: usize) -> u8
    requires { body < 16 }
    ensures { result ≡ mark_of body left }
{
    if left == 0 { (body + 1) as u8 } else { 0 }
}

// The bytes of the body at the start of a slice, whose first byte is byte `first` of the table. Its commands are marked. The loop goes by widths that it reads, so no range has
// the places; the read command is taken apart by `let .. else`, document 01's form, and not by `?`.
fn body_extent(
    code: &[u8],
    bodies: usize,
    body: usize,
    first: usize,
    marks: &mut [u8; 2048],
) -> Result<usize, Refusal>
    requires { (body < 16) × (first + length code.now ≤ 2048) }
    ensures value { result ≡ extent_of bodies body 0 0 (readings code.now) }
    ensures marks_body { MarksBody body code.now first marks.old marks.new result }
{
    let mut at: usize = 0;
    let mut left: usize = 0;
    loop {
        // The else branch gives the reader's number.
        let found = read(&code[at..]);
        let Ok(Whole { command, size }) = found else {
            return Err(found.unwrap_err());
        };
        placing(bodies, body, left, command)?;
        marks[first + at] = mark(body, left);
        at += size;
        if is_end(command) {
            return Ok(at);
        }
        left = left_after(left, command);
    }
}

// Numbers 1 and 2 in this order.
#[tactic(auto, unfolding(crate::specs::Inner::Scanned::opening, crate::specs::Scan::fits_length, crate::specs::Scan::fits_bodies))]
fn opening(table: &[u8]) -> Result<(), Refusal>
    ensures { result ≡ answered (opening table.now) tt }
{
    if table.len() < 2 || 2048 < table.len() {
        return Err(Refusal::Size);
    }
    if table[0] < 1 || 16 < table[0] {
        return Err(Refusal::Bodies);
    }
    Ok(())
}

// Reads a whole table: numbers 1 to 8 in checking order, and where each body begins. The commands before the first failing one are marked.
fn lay(table: &[u8], marks: &mut [u8; 2048]) -> Result<Layout, Refusal>
    requires { marks.old ≡ replicate 2048 0 }
    ensures value { result ≡ answered (scan table.now) (layout_of table.now) }
    ensures marks_after { scan table.now ≡ 0 → marks.new ≡ places_of table.now }
{
    opening(table)?;
    let bodies = wide(table[0]);
    let mut starts = [0usize; 16];
    let mut at: usize = 1;
    for body in 0..bodies {
        let size = body_extent(&table[at..], bodies, body, at, marks)?;
        starts[body] = at;
        at += size;
    }
    if at < table.len() {
        return Err(Refusal::Surplus);
    }
    Ok(Layout { bodies, starts })
}

// The same, with the marks of a table that is turned down all 0.
pub fn scan(table: &[u8], marks: &mut [u8; 2048]) -> Result<Layout, Refusal>
    ensures value { result ≡ answered (scan table.now) (layout_of table.now) }
    ensures marks_after { marks.new ≡ places_of table.now }
{
    *marks = [0u8; 2048];
    let found = lay(table, marks);
    if found.is_err() {
        *marks = [0u8; 2048];
    }
    found
}
