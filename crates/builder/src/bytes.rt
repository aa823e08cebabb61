// The bytes of entries.
ghost use Rattle.builder.specs.Filled.{Counted, Filled};

use program::command::width_at;

// The ENDs with a command byte more, counted up to 17.
#[tactic(auto, unfolding(crate::specs::Filled::Counted))]
fn with_end(ends: u8, op: u8) -> u8
    ensures { Counted ends op result }
{
    if op == 0 {
        ends.saturating_add(1).min(17)
    } else {
        ends
    }
}

// The bytes of entries into a buffer, and how many they are; none where they are more.
pub fn fill(entries: &[[u8; 5]], out: &mut [u8; 2048]) -> Option<usize>
    ensures { Filled entries.now out.new result }
{
    let mut at: usize = 1;
    let mut ends: u8 = 0;
    for entry in entries {
        let size = width_at(entry[0]);
        if out.len() < at + size {
            return None;
        }
        out[at..at + size].copy_from_slice(&entry[..size]);
        ends = with_end(ends, entry[0]);
        at += size;
    }
    out[0] = ends;
    Some(at)
}
