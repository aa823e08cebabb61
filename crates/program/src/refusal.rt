// Why a call is turned down.
ghost use Rattle.std.specs.Prelude.{◌≡◌};
ghost use Rattle.program.specs.Refusal.{refusal_number};

// By its number: 1 to 17 in document 01, 18 in document 02; 255 where a lent buffer has another length than the call needs.
#[derive(Clone, Copy, Debug, PartialEq, Eq)]
pub enum Refusal {
    // The table has fewer than 2 or more than 2,048 bytes.
    Size = 1,
    // Byte 0 is no number of bodies.
    Bodies = 2,
    // No command has this byte.
    Unknown = 3,
    // Where no whole command can be read, the table is cut.
    Cut = 4,
    // An operand is outside its range.
    Operand = 5,
    // A body that is named is outside its range.
    Named = 6,
    // A command that belongs to an ATOM is none on a cell.
    Atom = 7,
    // Bytes follow the last body.
    Surplus = 8,
    // Counts of the table that are above their limits.
    Activities = 9,
    Clocks = 10,
    Accumulators = 11,
    Work = 12,
    // The state is unfit.
    State = 13,
    // The activity has not been spawned, has ended, or waits.
    Unspawned = 14,
    Ended = 15,
    Waits = 16,
    // The step would need more than there is.
    Spent = 17,
    // The lent room is too small for what was built or listed.
    Room = 18,
    // A lent buffer has another length than the call needs.
    Buffer = 255,
}

impl Refusal {
    pub fn number(self) -> u8
        ensures { result ≡ refusal_number self }
    {
        self as u8
    }
}
