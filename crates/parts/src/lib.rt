// Small total functions on the parts of a state and of an answer.
#![tactic(auto)]

pub mod numbers; // numbers.rt: enums by the papers' numbers, and the number of an answer
pub mod checks; // checks.rt: tests of a status, of a registration and of a clock name that is free
pub mod holds; // holds.rt: what RESUME, NEXT and ASYNC do to a clock's registration
pub mod empty; // empty.rt: unused entries, the state of zeros and the start state
pub mod reduction; // reduction.rt: accumulators
