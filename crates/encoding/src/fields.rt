// The fields of a state, one after the other.
ghost use Rattle.std.specs.Prelude.{◌≡◌, true, length};
ghost use Rattle.encoding.specs.Encode.{encode_state};
ghost use Rattle.encoding.specs.Decode.{state_of, fields_encode};

use super::accumulators::accumulators_at;
use super::numbers::{LIMIT, are_zero, cells_at, put_zeros};
use super::part::{Part, each_encodes, put_each, read_each};
use parts::empty::no_activity;
use rules::state::{Accumulator, Activity, State};

// Whether bytes encode a state. `decode` alone calls this and the next, with a state's length tested.
pub fn fields_encode(bytes: &[u8]) -> bool
    requires { length bytes.now ≡ 13776 }
    ensures { result ≡ fields_encode bytes.now }
{
    bytes[0] == 1
        && u32::at(&bytes[4..8]) <= LIMIT
        && are_zero(&bytes[8..16])
        && each_encodes::<Accumulator>(&bytes[80..464], 16)
        && each_encodes::<Activity>(&bytes[464..13776], 64)
}

// The state that bytes encode.
pub fn state_at(bytes: &[u8]) -> State
    requires bytes_len { length bytes.now ≡ 13776 }
    requires bytes_value { fields_encode bytes.now ≡ true }
    ensures { result ≡ state_of bytes.now }
{
    let mut acts = [no_activity(); 64];
    read_each(&bytes[464..13776], &mut acts);
    State {
        cells: cells_at(&bytes[16..80]),
        acts,
        accs: accumulators_at(&bytes[80..464]),
        steps: u32::at(&bytes[4..8]) as u16,
        activities: bytes[1],
        clocks: bytes[2],
        accumulators: bytes[3],
    }
}

// The bytes of a state.
pub fn put_state(s: State, out: &mut [u8])
    requires { length out.old ≡ 13776 }
    ensures { out.new ≡ encode_state s }
{
    out[0] = 1;
    out[1] = s.activities;
    out[2] = s.clocks;
    out[3] = s.accumulators;
    u32::from(s.steps).put(&mut out[4..8]);
    put_zeros(&mut out[8..16]);
    put_each(&s.cells, &mut out[16..80]);
    put_each(&s.accs, &mut out[80..464]);
    put_each(&s.acts, &mut out[464..13776]);
}
