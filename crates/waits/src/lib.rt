// Waiting, read in the lent bytes: how many an activity waits for, and so number 16; and whether one inside a finish has faulted.
#![tactic(auto)]

pub mod behind; // behind.rt: how many are behind on an own clock
pub mod inside; // inside.rt: those inside a finish, how many have not ended and whether one has faulted
pub mod waiting; // waiting.rt: how many an activity waits for at its command
