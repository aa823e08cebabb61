// The commands of a table.
ghost use Rattle.std.specs.Prelude.{◌≡◌, ◌<◌};
ghost use Rattle.program.specs.Command.{width_at, opcode, operands_of, padded, names, named, times, held, is_end, uses_cell};
ghost use Rattle.program.specs.Inner.Coding.{commands};

// A command with its operands as they stand in the table.
#[derive(Clone, Copy, Debug, PartialEq, Eq)]
pub enum Command {
    End,
    Next,
    Clock(u8),
    Resume(u8),
    Drop(u8),
    Async(u8, u8),
    Finish(u8),
    Repeat(u8, u8),
    Acc(u8, u8),
    Offer(u8),
    Read(u8),
    Reset(u8),
    Put(u32),
    Fetch(u8),
    Store(u8),
    Add(u8),
    Atom(u8),
    Choose(u8),
}

// A byte as a number of the machine's width, and the range that it has there.
pub fn wide(x: u8) -> usize
    ensures { (result ≡ x) × (result < 256) }
{
    usize::from(x)
}

// A command's byte. A case with operands has no number of its own, so `as` cannot give it.
pub fn opcode(command: Command) -> usize
    ensures { (result ≡ opcode command) × (result < commands) }
{
    match command {
        Command::End => 0,
        Command::Next => 1,
        Command::Clock(_) => 2,
        Command::Resume(_) => 3,
        Command::Drop(_) => 4,
        Command::Async(_, _) => 5,
        Command::Finish(_) => 6,
        Command::Repeat(_, _) => 7,
        Command::Acc(_, _) => 8,
        Command::Offer(_) => 9,
        Command::Read(_) => 10,
        Command::Reset(_) => 11,
        Command::Put(_) => 12,
        Command::Fetch(_) => 13,
        Command::Store(_) => 14,
        Command::Add(_) => 15,
        Command::Atom(_) => 16,
        Command::Choose(_) => 17,
    }
}

// A command's operand bytes, and 0 for those that it lacks.
pub fn operands(command: Command) -> [u8; 4]
    ensures { result ≡ padded (operands_of command) }
{
    match command {
        Command::End | Command::Next => [0, 0, 0, 0],
        Command::Clock(c) | Command::Resume(c) | Command::Drop(c) => [c, 0, 0, 0],
        Command::Async(b, m) => [b, m, 0, 0],
        Command::Repeat(n, b) => [n, b, 0, 0],
        Command::Acc(a, o) => [a, o, 0, 0],
        Command::Offer(a) | Command::Read(a) | Command::Reset(a) => [a, 0, 0, 0],
        Command::Put(v) => v.to_le_bytes(),
        Command::Fetch(d) | Command::Store(d) | Command::Add(d) => [d, 0, 0, 0],
        Command::Atom(k) => [k, 0, 0, 0],
        Command::Finish(b) | Command::Choose(b) => [b, 0, 0, 0],
    }
}

// The bytes of a command byte and its operands, 1 where no command has this byte. A number an arm, and it is looked up; by ranges it is a row of comparisons.
#[tactic(auto, unfolding(crate::specs::Command::width_at, crate::specs::Command::row_at, crate::specs::Command::rows))]
pub fn width_at(op: u8) -> usize
    ensures { result ≡ width_at op }
{
    match op {
        0 => 1,
        1 => 1,
        2 => 2,
        3 => 2,
        4 => 2,
        5 => 3,
        6 => 2,
        7 => 3,
        8 => 3,
        9 => 2,
        10 => 2,
        11 => 2,
        12 => 5,
        13 => 2,
        14 => 2,
        15 => 2,
        16 => 2,
        17 => 2,
        _ => 1,
    }
}

// Whether a command names a body.
#[tactic(auto, unfolding(crate::specs::Command::names, crate::specs::Command::row_of, crate::specs::Command::row_at, crate::specs::Command::rows))]
pub(crate) fn names(command: Command) -> bool
    ensures { result ≡ names command }
{
    matches!(
        command,
        Command::Async(_, _) | Command::Finish(_) | Command::Repeat(_, _) | Command::Choose(_)
    )
}

// The body that a command names, or 0: the definitions have whether it names one and which apart.
#[tactic(auto, unfolding(crate::specs::Command::named, crate::specs::Command::row_of, crate::specs::Command::row_at, crate::specs::Command::rows))]
pub fn named(command: Command) -> usize
    ensures { (result ≡ named command) × (result < 256) }
{
    match command {
        Command::Async(b, _) | Command::Repeat(_, b) => wide(b),
        Command::Finish(b) | Command::Choose(b) => wide(b),
        _ => 0,
    }
}

// How often a command runs the body that it names.
#[tactic(auto, unfolding(crate::specs::Command::times, crate::specs::Command::names, crate::specs::Command::row_of, crate::specs::Command::row_at, crate::specs::Command::rows))]
pub fn times(command: Command) -> usize
    ensures { (result ≡ times command) × (result < 256) }
{
    match command {
        Command::Async(_, _) | Command::Finish(_) | Command::Choose(_) => 1,
        Command::Repeat(n, _) => wide(n),
        _ => 0,
    }
}

// How many of the commands that follow belong to a command: the k of ATOM.
#[tactic(auto, unfolding(crate::specs::Command::held, crate::specs::Command::row_of, crate::specs::Command::row_at, crate::specs::Command::rows))]
pub(crate) fn held(command: Command) -> usize
    ensures { (result ≡ held command) × (result < 256) }
{
    match command {
        Command::Atom(k) => wide(k),
        _ => 0,
    }
}

// Whether a command is END.
#[tactic(auto, unfolding(crate::specs::Command::is_end))]
pub(crate) fn is_end(command: Command) -> bool
    ensures { result ≡ is_end command }
{
    matches!(command, Command::End)
}

// Whether a command is one of 0D to 0F.
#[tactic(auto, unfolding(crate::specs::Command::uses_cell))]
pub(crate) fn uses_cell(command: Command) -> bool
    ensures { result ≡ uses_cell command }
{
    matches!(
        command,
        Command::Fetch(_) | Command::Store(_) | Command::Add(_)
    )
}
