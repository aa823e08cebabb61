// The lines that the walk prints, put into a buffer.
#![tactic(auto)]

mod put; // put.rt: a text under way: a byte, bytes and a number
mod fit; // fit.rt: a text that ends within its buffer
mod line; // line.rt: the header, a line, the total and the line of a table turned down
mod steps; // steps.rt: what the lines tell, and the steps taken
mod page; // page.rt: as many lines as a buffer holds

pub use fit::FitText;
pub use put::Text;
pub use steps::{Steps, steps_of};
