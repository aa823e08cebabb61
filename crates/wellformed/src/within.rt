// An activity that was spawned, in its 208 bytes.
ghost use Rattle.std.specs.Prelude.{ℕ, leb, true, ◌≡◌};
ghost use Rattle.program.specs.Bodies.{program_of};
ghost use Rattle.rules.specs.Search.{all_below};
ghost use Rattle.rules.specs.State.{bound};
ghost use Rattle.rules.specs.WellFormed.{stack_fits, body_fits, barrier_fits, spawner_fits};
ghost use Rattle.encoding.specs.Decode.{activity_at};
ghost use Rattle.wellformed.specs.Passing.{activity_passes};

use super::frames::stack_passes;
use super::made::Made;
use super::marks::Marked;
use super::names::{Named, holds_pass};
use entries::entry::Entry;
use parts::checks::{is_at_barrier, is_ended};
use places::accepted::Accepted;
use program::command::Command;

// An unended activity has a body, an ended one has no body and no clock.
#[tactic(auto, unfolding(rules::specs::WellFormed::body_fits, encoding::specs::Decode::activity_at))]
fn body_fits(named: &Named<'_>) -> bool
    ensures { result ≡ body_fits (activity_at named.now.entry.bytes.now) }
{
    let entry = named.entry;
    if is_ended(entry.status()) {
        return entry.bytes[7] == 0 && named.holds_none();
    }
    0 < entry.bytes[7]
}

// A standing at a meeting is on NEXT.
#[tactic(auto, using(crate::proofs::Laws::on_next, crate::proofs::Laws::on_another_command, crate::proofs::Laws::topped), unfolding(rules::specs::WellFormed::barrier_fits, encoding::specs::Decode::activity_at))]
fn barrier_fits(table: &Accepted<'_>, made: u8, a: &Entry<'_>) -> bool
    requires { (stack_fits (program_of table.now.bytes.now) made (activity_at a.now.bytes.now) ≡ true) × (body_fits (activity_at a.now.bytes.now) ≡ true) }
    ensures { result ≡ barrier_fits (program_of table.now.bytes.now) (activity_at a.now.bytes.now) }
{
    if !is_at_barrier(a.status()) {
        return true;
    }
    let top = a.frame(a.bytes[7] as usize - 1);
    matches!(table.command_at(top), Command::Next)
}

// No unmade accumulator is named: the greatest name decides.
fn bindings_fit(made: u8, a: &Entry<'_>) -> bool
    ensures { result ≡ all_below 8 (λ (n : ℕ). leb (bound (activity_at a.now.bytes.now) n) made) }
{
    a.bytes[8..16].iter().fold(0, |most: u8, x| most.max(*x)) <= made
}

// A spawner is lower than its child; main has none.
fn spawner_fits(i: usize, a: &Entry<'_>) -> bool
    ensures { result ≡ spawner_fits i (activity_at a.now.bytes.now) }
{
    if i == 0 {
        return a.bytes[6] == 0;
    }
    (a.bytes[6] as usize) < i
}

// An activity that was spawned, number i.
#[tactic(auto, using(crate::proofs::WithinLaws::spawned_fails, crate::proofs::WithinLaws::spawned_left, crate::proofs::WithinLaws::holds_whole, crate::proofs::WithinLaws::stack_fit))]
pub fn spawned_passes(marked: &Marked<'_, '_>, made: Made, i: usize, a: &Entry<'_>) -> bool
    ensures { result ≡ activity_passes (program_of marked.now.table.bytes.now) made i a.now.bytes.now }
{
    if !a.status_whole() {
        return false;
    }
    if !stack_passes(marked, made.activities, a) {
        return false;
    }
    if !holds_pass(made.clocks, a) {
        return false;
    }
    let entry = *a;
    let named = Named { entry };
    if !body_fits(&named) {
        return false;
    }
    if !barrier_fits(&marked.table, made.activities, a) {
        return false;
    }
    if !named.names_fit() {
        return false;
    }
    bindings_fit(made.accumulators, a) && spawner_fits(i, a)
}
