// Commands on bodies and activities: END, ASYNC, FINISH, REPEAT and CHOOSE, in the lent bytes.
#![tactic(auto)]

mod push; // push.rt: a body begins on top of the stack
pub mod finish; // finish.rt: FINISH
pub mod repeat; // repeat.rt: REPEAT
pub mod choose; // choose.rt: CHOOSE
pub mod end; // end.rt: END
mod lend; // lend.rt: the faults of ASYNC
pub mod spawn; // spawn.rt: ASYNC
