// The four counts of a table: work, activities, clocks and accumulators.
ghost use Rattle.std.specs.Prelude.{◌≡◌, ◌+◌, ◌*◌, ◌≤◌, ◌<◌};
ghost use Rattle.program.specs.Command.{width_at, held};
ghost use Rattle.program.specs.Scan.{scan, layout_of};
ghost use Rattle.program.specs.Inner.Counting.{cap, own_counts, added, Small, CountsOf, Counting, Filled};

use super::command::{Command, held, is_end, named, times, width_at};
use super::reading::{byte_at, known};

// What a command, a body or a table comes to.
#[derive(Clone, Copy, Debug, PartialEq, Eq)]
pub struct Counts {
    pub work: u64,
    pub activities: u64,
    pub clocks: u64,
    pub accumulators: u64,
}

const NOTHING: Counts = Counts {
    work: 0,
    activities: 0,
    clocks: 0,
    accumulators: 0,
};

// What a command counts by itself.
#[tactic(auto, unfolding(crate::specs::Inner::Counting::own_counts, crate::specs::Command::row_of, crate::specs::Command::row_at, crate::specs::Command::rows))]
fn own(command: Command) -> Counts
    ensures { result ≡ own_counts command }
{
    Counts {
        work: 1 + u64::from(matches!(command, Command::Next)),
        activities: u64::from(matches!(command, Command::Async(_, _))),
        clocks: u64::from(matches!(command, Command::Clock(_))),
        accumulators: u64::from(matches!(command, Command::Acc(_, _))),
    }
}

// The bytes from a command, whose byte is op, to the next of its body: the commands of an ATOM have two bytes each.
#[tactic(auto, using(crate::proofs::RowLaws::width_few))]
fn stride(op: u8, command: Command) -> usize
    ensures { (result ≡ width_at op + 2 * held command) × (result < 1024) }
{
    width_at(op) + 2 * held(command)
}

// A count with a command more, saturated one above the greatest limit.
#[tactic(auto, using(crate::proofs::TotalLaws::product))]
fn sum(before: u64, own: u64, runs: u64, inner: u64) -> u64
    requires { (before ≤ 65536) × ((own < 256) × ((runs < 256) × (inner ≤ 65536))) }
    ensures { result ≡ cap (before + own + runs * inner) }
{
    (before + own + runs * inner).min(65536)
}

impl Counts {
    // These with a command more, which runs a body of the inner counts so many times.
    fn with(self, command: Command, runs: u64, inner: Counts) -> Counts
        requires { (Small self) × ((Small inner) × (runs < 256)) }
        ensures { result ≡ added self command runs inner }
    {
        let own = own(command);
        Counts {
            work: sum(self.work, own.work, runs, inner.work),
            activities: sum(self.activities, own.activities, runs, inner.activities),
            clocks: sum(self.clocks, own.clocks, runs, inner.clocks),
            accumulators: sum(
                self.accumulators,
                own.accumulators,
                runs,
                inner.accumulators,
            ),
        }
    }
}

// The counts of a body, noted so that none is counted twice. It goes down into the bodies that its commands name, which have greater numbers.
fn count_body(
    table: &[u8],
    code: &[u8],
    starts: &[usize; 16],
    body: usize,
    notes: &mut [Option<Counts>; 16],
) -> Counts
    requires { Counting table.now code.now starts.now body notes.old }
    ensures { Filled table.now body result notes.new }
{
    let mut sums = NOTHING;
    let mut at: usize = 0;
    loop {
        let command = known(code, at);
        let next = at + stride(byte_at(code, at), command);
        let runs = times(command);
        sums = if 0 < runs {
            let b = named(command);
            let inner = match notes[b] {
                Some(counts) => counts,
                None => count_body(table, &table[starts[b]..], starts, b, notes),
            };
            sums.with(command, runs as u64, inner)
        } else {
            sums.with(command, 0, NOTHING)
        };
        if is_end(command) {
            notes[body] = Some(sums);
            return sums;
        }
        at = next;
    }
}

// The four counts of body 0 of an accepted table, saturated.
pub fn count_table(table: &[u8], starts: &[usize; 16]) -> Counts
    requires { (scan table.now ≡ 0) × (starts.now ≡ (layout_of table.now).starts) }
    ensures { CountsOf table.now 0 result }
{
    count_body(table, &table[starts[0]..], starts, 0, &mut [None; 16])
}
