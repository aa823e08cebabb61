// The stack of bodies in an activity's 208 bytes.
ghost use Rattle.std.specs.Prelude.{◌<◌, ◌-◌, true, ◌&&◌, ◌≡◌};
ghost use Rattle.program.specs.Bodies.{program_of};
ghost use Rattle.rules.specs.State.{frame};
ghost use Rattle.rules.specs.WellFormed.{is_placed, is_stacked, frame_fits};
ghost use Rattle.encoding.specs.Decode.{activity_at, frame_encodes};
ghost use Rattle.entries.specs.Entries.{frame_bytes};
ghost use Rattle.wellformed.specs.Passing.{stack_passes};

use super::marks::Marked;
use super::runs::{is_bottom, run_by};
use entries::entry::Entry;
use entries::is_zero;
use places::accepted::Accepted;
use rules::state::Frame;

// A frame on another: it is run by the other's command, and stacked bodies rise.
#[tactic(auto, unfolding(rules::specs::WellFormed::is_stacked))]
fn is_stacked(table: &Accepted<'_>, made: u8, below: Frame, f: Frame) -> bool
    requires { is_placed (program_of table.now.bytes.now) below ≡ true }
    ensures { result ≡ is_stacked (program_of table.now.bytes.now) made below f }
{
    run_by(made, table.command_at(below), f) && below.body < f.body
}

// Frame d of a stack, where the one below it is at a place.
#[tactic(auto, using(crate::proofs::Laws::unplaced, crate::proofs::Laws::at_bottom, crate::proofs::Laws::on_another))]
fn frame_passes(marked: &Marked<'_, '_>, made: u8, a: &Entry<'_>, d: usize) -> bool
    requires { (d < 16) × (0 < d → is_placed (program_of marked.now.table.bytes.now) (frame (activity_at a.now.bytes.now) (d - 1)) ≡ true) }
    ensures { result ≡ (frame_encodes (frame_bytes a.now.bytes.now d) && frame_fits (program_of marked.now.table.bytes.now) made (activity_at a.now.bytes.now) d) }
{
    if !a.frame_whole(d) {
        return false;
    }
    let f = a.frame(d);
    if !marked.is_placed(f) {
        return false;
    }
    if d == 0 {
        return is_bottom(f);
    }
    let below = a.frame(d - 1);
    is_stacked(&marked.table, made, below, f)
}

// The frames of a stack; all bytes behind them are 0.
pub fn stack_passes(marked: &Marked<'_, '_>, made: u8, a: &Entry<'_>) -> bool
    ensures { result ≡ stack_passes (program_of marked.now.table.bytes.now) made a.now.bytes.now }
{
    let depth = a.bytes[7] as usize;
    if 16 < depth {
        return false;
    }
    // A loop, and not `all`: a frame is tested where the one below it has passed.
    for d in 0..depth {
        if !frame_passes(marked, made, a, d) {
            return false;
        }
    }
    is_zero(&a.bytes[80 + 8 * depth..])
}
