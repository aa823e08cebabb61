// The state, by value: wide fields first, so that nothing is padded where it can be helped. Memory is fixed, so an array has its count beside it. An unused part
// is all 0 and no Option: the definitions, the theorems on them and the state's bytes read these numbers.

// A fault: a breach, by its number in document 01, or F8, document 02's, of an owner to whom a finish passes a fault on.
#[derive(Clone, Copy, Debug, PartialEq, Eq)]
pub enum Fault {
    F1 = 1,
    F2 = 2,
    F3 = 3,
    F4 = 4,
    F5 = 5,
    F6 = 6,
    F7 = 7,
    F8 = 8,
}

// An activity's standing (document 01): running, at a meeting, ended, or faulted.
#[derive(Clone, Copy, Debug, PartialEq, Eq)]
pub enum Status {
    Running,
    AtBarrier,
    Ended,
    Faulted(Fault),
}

// A body on an activity's stack.
#[derive(Clone, Copy, Debug, PartialEq, Eq)]
pub struct Frame {
    // The place of its command: bytes from the body's first command. Below the top it stays on the FINISH, REPEAT or CHOOSE that runs the body above.
    pub offset: u16,
    pub body: u8,
    // Runs left of a REPEAT body, the one under way counted; 0 for others.
    pub runs: u8,
    // How many activities there were when a FINISH body began; 0 for others.
    pub first: u8,
}

// Whether a clock is held under a name, and how.
#[derive(Clone, Copy, Debug, PartialEq, Eq)]
pub enum Registration {
    Free = 0,
    Live = 1,
    Quiesced = 2,
}

// A clock name of an activity.
#[derive(Clone, Copy, Debug, PartialEq, Eq)]
pub struct Hold {
    pub phase: u16,
    pub clock: u8,
    pub registration: Registration,
}

#[derive(Clone, Copy, Debug, PartialEq, Eq)]
pub struct Activity {
    // Document 01: the hand.
    pub register: u32,
    pub frames: [Frame; 16],
    pub holds: [Hold; 8],
    // By accumulator name: 0 unbound, else the accumulator's number plus 1.
    pub accumulators: [u8; 8],
    pub status: Status,
    pub spawner: u8,
    // The bodies on the stack.
    pub depth: u8,
}

// How an accumulator reduces.
#[derive(Clone, Copy, Debug, PartialEq, Eq)]
pub enum Operator {
    Sum = 0,
    Minimum = 1,
    Maximum = 2,
}

#[derive(Clone, Copy, Debug, PartialEq, Eq)]
pub struct Accumulator {
    pub value: u32,
    pub owner: u8,
    pub operator: Operator,
}

#[derive(Clone, Copy, Debug, PartialEq, Eq)]
pub struct State {
    pub cells: [u32; 16],
    pub acts: [Activity; 64],
    pub accs: [Accumulator; 16],
    // Document 01: the steps taken.
    pub steps: u16,
    // How many of each were made.
    pub activities: u8,
    pub clocks: u8,
    pub accumulators: u8,
}
