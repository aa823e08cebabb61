// The accumulators: 24 bytes each.
ghost use Rattle.std.specs.Prelude.{◌≡◌, length};
ghost use Rattle.encoding.specs.Bytes.{untested, parts_at};
ghost use Rattle.encoding.specs.Decode.{accumulator_at, accumulator_encodes};

use super::numbers::{are_zero, put_zeros};
use super::part::{Part, read_each};
use parts::empty::no_accumulator;
use parts::numbers::operator_of;
use rules::state::Accumulator;

impl Part for Accumulator {
    ghost use Rattle.encoding.specs.Encode.{encode_accumulator};

    const SIZE: usize = 24;

    ghost SIZE = { 24 };

    ghost encode = { encode_accumulator };

    ghost decode = { accumulator_at };

    ghost passes = { accumulator_encodes };

    ghost readable = { untested };

    fn encodes(bytes: &[u8]) -> bool {
        bytes[5] <= 2 && are_zero(&bytes[6..24])
    }

    fn at(bytes: &[u8]) -> Accumulator {
        Accumulator {
            value: u32::at(&bytes[0..4]),
            owner: bytes[4],
            operator: operator_of(bytes[5]),
        }
    }

    fn put(self, out: &mut [u8]) {
        self.value.put(&mut out[0..4]);
        out[4] = self.owner;
        out[5] = self.operator as u8;
        put_zeros(&mut out[6..24]);
    }
}

// All accumulators.
pub fn accumulators_at(bytes: &[u8]) -> [Accumulator; 16]
    requires { length bytes.now ≡ 384 }
    ensures { result ≡ parts_at 24 16 accumulator_at bytes.now }
{
    let mut accs = [no_accumulator(); 16];
    read_each(bytes, &mut accs);
    accs
}
