// Reads and counts tables. Everything above relies only on what this crate promises. Memory is fixed: rows and marks are arrays of the greatest size.
#![tactic(auto)]

pub mod command; // command.rt: the commands, and what the code knows of each
pub mod refusal; // refusal.rt: why a call is turned down
mod count; // count.rt: the four counts of an accepted table
pub mod reading; // reading.rt: one command from the slice that starts at it
mod scan; // scan.rt: a whole table, numbers 1 to 8, and the place of every command
pub mod table; // table.rt: the number 1 to 12, where the bodies begin, and the counts
