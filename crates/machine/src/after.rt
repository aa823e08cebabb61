// The entries that are read back from the bytes of a step.
ghost use Rattle.std.specs.Prelude.{◌≡◌, true, ◌<◌, length};
ghost use Rattle.rules.specs.State.{act};
ghost use Rattle.encoding.specs.Decode.{state_of, fields_encode};

use encoding::activities::activity_at;
use rules::state::Activity;

// An activity of the state that bytes encode.
pub fn activity_in(bytes: &[u8], i: usize) -> Activity
    requires bytes_len { length bytes.now ≡ 13776 }
    requires bytes_value { fields_encode bytes.now ≡ true }
    requires i_bound { i < 64 }
    ensures { result ≡ act (state_of bytes.now) i }
{
    let at = 464 + 208 * i;
    activity_at(&bytes[at..at + 208])
}
