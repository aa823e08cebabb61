// Commands on clocks: NEXT, CLOCK, RESUME and DROP, in the lent bytes.
#![tactic(auto)]

// That an operand is inside its range is a premise of what these functions promise: it is known of an activity that stands on the command, and not where a
// command is taken apart, so no type could keep it.

pub mod next; // next.rt: NEXT
pub mod clock; // clock.rt: CLOCK
pub mod rehold; // rehold.rt: RESUME and DROP
