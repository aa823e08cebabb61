// Commands on values: PUT, ACC, OFFER, READ, RESET, FETCH, STORE, ADD and ATOM, in the lent bytes.
#![tactic(auto)]

// That an operand is inside its range is a premise of what these functions promise: it is known of an activity that stands on the command, and not where a
// command is taken apart, so no type could keep it.

pub mod put; // put.rt: PUT
pub mod acc; // acc.rt: ACC
pub mod offer; // offer.rt: OFFER
mod own; // own.rt: the accumulator of READ and RESET
pub mod read; // read.rt: READ
pub mod reset; // reset.rt: RESET
pub mod cells; // cells.rt: FETCH, STORE and ADD
pub mod atom; // atom.rt: ATOM
