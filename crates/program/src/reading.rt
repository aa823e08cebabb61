// One command from the slice that starts at it.
ghost use Rattle.std.specs.Prelude.{◌≡◌, get_or, drop};
ghost use Rattle.program.specs.Command.{row_of, operands_of, padded};
ghost use Rattle.program.specs.Inner.Coding.{made};
ghost use Rattle.program.specs.Reading.{all_inside, read, bare};

use super::command::{Command, width_at};
use super::refusal::Refusal;

// A whole command at the start of a slice, and its bytes: of ATOM its own two.
#[derive(Clone, Copy, Debug, PartialEq, Eq)]
pub struct Whole {
    pub command: Command,
    pub size: usize,
}

// A byte of a slice, 0 past its end.
pub fn byte_at(code: &[u8], i: usize) -> u8
    ensures { result ≡ get_or code.now i 0 }
{
    if i < code.len() { code[i] } else { 0 }
}

// The first four bytes of a slice, 0 past its end.
fn first_four(code: &[u8]) -> [u8; 4]
    ensures { result ≡ padded code.now }
{
    [
        byte_at(code, 0),
        byte_at(code, 1),
        byte_at(code, 2),
        byte_at(code, 3),
    ]
}

// The command of a byte with the operands behind it, or none where no command has this byte. PUT alone has more than two. Compiled in by a mark: as a call it hands the
// command over through memory.
#[inline(always)]
#[tactic(auto, unfolding(crate::specs::Inner::Coding::made, crate::specs::Command::command_of, crate::specs::Command::rows))]
fn command_of(op: u8, rest: &[u8]) -> Option<Command>
    ensures { result ≡ made op rest.now }
{
    let x = byte_at(rest, 0);
    let y = byte_at(rest, 1);
    match op {
        0 => Some(Command::End),
        1 => Some(Command::Next),
        2 => Some(Command::Clock(x)),
        3 => Some(Command::Resume(x)),
        4 => Some(Command::Drop(x)),
        5 => Some(Command::Async(x, y)),
        6 => Some(Command::Finish(x)),
        7 => Some(Command::Repeat(x, y)),
        8 => Some(Command::Acc(x, y)),
        9 => Some(Command::Offer(x)),
        10 => Some(Command::Read(x)),
        11 => Some(Command::Reset(x)),
        12 => Some(Command::Put(u32::from_le_bytes(first_four(rest)))),
        13 => Some(Command::Fetch(x)),
        14 => Some(Command::Store(x)),
        15 => Some(Command::Add(x)),
        16 => Some(Command::Atom(x)),
        17 => Some(Command::Choose(x)),
        _ => None,
    }
}

// Whether a command's operands are inside their ranges; that of a body is tried apart.
#[tactic(auto, unfolding(crate::specs::Command::row_of, crate::specs::Command::row_at, crate::specs::Command::rows))]
fn operands_fit(command: Command) -> bool
    ensures { result ≡ all_inside (row_of command).operands (operands_of command) }
{
    match command {
        Command::Clock(c) | Command::Resume(c) | Command::Drop(c) => c < 8,
        Command::Acc(a, o) => a < 8 && o < 3,
        Command::Offer(a) | Command::Read(a) | Command::Reset(a) => a < 8,
        Command::Fetch(d) | Command::Store(d) | Command::Add(d) => d < 16,
        Command::Atom(k) => 1 <= k && k <= 8,
        _ => true,
    }
}

// The command at the start of a slice: numbers 3, 4 and 5 in this order. A byte that no command has is one byte wide, so it is never cut; with the bytes tried first,
// the command and its ranges are looked up in one go.
pub(crate) fn read(code: &[u8]) -> Result<Whole, Refusal>
    ensures { result ≡ read code.now }
{
    let [op, rest @ ..] = code else {
        return Err(Refusal::Cut);
    };
    let size = width_at(*op);
    if code.len() < size {
        return Err(Refusal::Cut);
    }
    let Some(command) = command_of(*op, rest) else {
        return Err(Refusal::Unknown);
    };
    if !operands_fit(command) {
        return Err(Refusal::Operand);
    }
    Ok(Whole { command, size })
}

// The command at an offset, with nothing tried: for where a whole one is known to stand. Compiled in by the same mark.
#[inline(always)]
pub fn known(code: &[u8], offset: usize) -> Command
    ensures { result ≡ bare (drop offset code.now) }
{
    if code.len() <= offset {
        return Command::End;
    }
    // By a match: with `unwrap_or` the command goes through memory.
    match command_of(code[offset], &code[offset + 1..]) {
        Some(command) => command,
        None => Command::End,
    }
}
