// The fields of a state in its lent bytes: each read, and each written, in place. All total but for what `bytes` asks of a kind of part. That an index is inside its range is a
// premise of the promises, as no type of the bytes could keep it.
#![tactic(auto)]

pub mod bytes; // bytes.rt: the parts in the lent bytes of a state, at a place
pub mod counts; // counts.rt: what a state counts: the steps taken, and the activities, clocks and accumulators made
pub mod cells; // cells.rt: the cells
pub mod accumulators; // accumulators.rt: the accumulators
pub mod activities; // activities.rt: an activity: its register, status, spawner, depth and accumulator names
pub mod holds; // holds.rt: the clock names of an activity
pub mod frames; // frames.rt: the bodies on the stack of an activity
