// An accepted table, and the command that a frame stands on.
#![tactic(auto)]

pub mod accepted; // accepted.rt: an accepted table as it was read, and the commands in it
