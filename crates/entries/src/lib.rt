// Parts of a state in its bytes: those that are all 0, the steps taken, and what stands in an activity's 208 bytes.
#![tactic(auto)]

ghost use Rattle.std.specs.Prelude.{◌≡◌, length};
ghost use Rattle.encoding.specs.Bytes.{number_of, part, all_zero};

use encoding::part::Part;

pub mod entry; // entry.rt: what stands in an activity's 208 bytes

// Whether all bytes are 0, with no exit on the way.
pub fn is_zero(bytes: &[u8]) -> bool
    ensures { result ≡ all_zero bytes.now }
{
    bytes.iter().fold(0, |most: u8, byte| most.max(*byte)) == 0
}

// The steps taken, of a state's bytes.
pub fn steps_in(state: &[u8]) -> u32
    ensures { length state.now ≡ 13776 → result ≡ number_of (part state.now 4 4) }
{
    if state.len() != 13776 {
        return 0;
    }
    u32::at(&state[4..8])
}
