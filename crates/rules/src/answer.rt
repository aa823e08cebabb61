// What the machine's calls answer.
use super::state::{State, Status};
use program::refusal::Refusal;

// A step that was taken, with the activity's status after it, or why the call was turned down.
pub type Answer = Result<Status, Refusal>;

// The answer of a start or a step, and the state after it: a call that is turned down has one too.
#[derive(Clone, Copy, Debug, PartialEq, Eq)]
pub struct Stepped {
    pub answer: Answer,
    pub state: State,
}

// The ready set: bit i for activity i; or why the call was turned down, 1 to 13.
pub type Ready = Result<u64, Refusal>;

// How a run ended: every step was called; or the table was turned down; or a lent buffer has another length than the answers need.
pub type Completion = Result<(), Refusal>;

// How a run ended, and the state after it: a run that is turned down has one too.
#[derive(Clone, Copy, Debug, PartialEq, Eq)]
pub struct Ran {
    pub completion: Completion,
    pub state: State,
}
