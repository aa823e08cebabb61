// Number 13 of document 01: whether a state is fit for its table.
#![tactic(auto)]

ghost use Rattle.std.specs.Prelude.{◌≡◌};
ghost use Rattle.program.specs.Bodies.{program_of};
ghost use Rattle.program.specs.Refusal.{told};
ghost use Rattle.program.specs.Table.{work_limit, number_of, table_of};
ghost use Rattle.wellformed.specs.Judged.{judged, refused, table_told};
ghost use Rattle.wellformed.specs.Passing.{passes, unfit_bytes};

use lent::state_passes;
use marks::Marked;
use places::accepted::Accepted;
use program::table::{Table, read_places};
use unfit::Unfit;

pub mod unfit; // unfit.rt: why a state is not taken
mod made; // made.rt: how many activities, clocks and accumulators were made
mod marks; // marks.rt: an accepted table with its marks
mod runs; // runs.rt: what runs a frame
mod frames; // frames.rt: the stack of bodies in an activity's bytes
mod clocks; // clocks.rt: two clock names of one activity
mod names; // names.rt: the clock names in an activity's bytes
mod within; // within.rt: an activity that was spawned, in its bytes
mod lent; // lent.rt: the bytes of a state

// Numbers 1 to 13 in checking order: the table's, then the state's; 13 too where its bytes encode none. With 13 too, the table as it was read.
pub fn check_state(table: &[u8], state: &[u8]) -> Result<Table, Unfit>
    ensures value { result ≡ judged (table_of work_limit table.now) (passes (program_of table.now) state.now) }
    ensures number { told (refused result) ≡ unfit_bytes (number_of work_limit table.now) (program_of table.now) state.now }
    ensures table_as_read { table_told result ≡ table_of work_limit table.now }
{
    let mut marks = [0u8; 2048];
    let read = match read_places(table, &mut marks) {
        Ok(known) => known,
        Err(refusal) => return Err(Unfit::Table(refusal)),
    };
    let accepted = Accepted {
        bytes: table,
        starts: &read.layout.starts,
        work: read.work,
    };
    let marked = Marked {
        table: accepted,
        marks: &marks,
    };
    if state_passes(&marked, state) {
        Ok(read)
    } else {
        Err(Unfit::State(read))
    }
}
