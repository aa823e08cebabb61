// A table that is read and counted: numbers 1 to 12.
ghost use Rattle.std.specs.Prelude.{◌≡◌, ◌+◌};
ghost use Rattle.program.specs.Places.{places_of};
ghost use Rattle.program.specs.Refusal.{answered};
ghost use Rattle.program.specs.Table.{work_limit, table_of};
ghost use Rattle.program.specs.Inner.Counting.{over_counts};

use super::count::{Counts, count_table};
use super::refusal::Refusal;
use super::scan::{Layout, scan};

// What an accepted table holds.
#[derive(Clone, Copy, Debug, PartialEq, Eq)]
pub struct Table {
    pub layout: Layout,
    pub work: u64,
    pub activities: u64,
    pub clocks: u64,
    pub accumulators: u64,
}

// Numbers 9 to 12 in this order: main is an activity more than are counted.
#[tactic(auto, unfolding(crate::specs::Inner::Counting::over_counts))]
fn over(totals: Counts) -> Result<(), Refusal>
    ensures { result ≡ answered (over_counts totals) tt }
{
    if 63 < totals.activities {
        return Err(Refusal::Activities);
    }
    if 16 < totals.clocks {
        return Err(Refusal::Clocks);
    }
    if 16 < totals.accumulators {
        return Err(Refusal::Accumulators);
    }
    if 65535 < totals.work {
        return Err(Refusal::Work);
    }
    Ok(())
}

// Reads and counts a table: numbers 1 to 12 in checking order. For each byte the mark is the number of its body plus 1 where a command of the body starts, and
// 0 elsewhere: all 0 where one of the numbers 1 to 8 turns the table down.
pub fn read_places(table: &[u8], marks: &mut [u8; 2048]) -> Result<Table, Refusal>
    ensures value { result ≡ table_of work_limit table.now }
    ensures marks_after { marks.new ≡ places_of table.now }
{
    let layout = scan(table, marks)?;
    let totals = count_table(table, &layout.starts);
    over(totals)?;
    Ok(Table {
        layout,
        work: totals.work,
        activities: totals.activities + 1,
        clocks: totals.clocks,
        accumulators: totals.accumulators,
    })
}

// The same without the places.
pub fn read_table(table: &[u8]) -> Result<Table, Refusal>
    ensures { result ≡ table_of work_limit table.now }
{
    let mut marks = [0u8; 2048];
    read_places(table, &mut marks)
}
