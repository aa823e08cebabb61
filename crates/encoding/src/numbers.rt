// Numbers of one, two and four bytes, lowest byte first, and reserved bytes.
ghost use Rattle.std.specs.Prelude.{◌≡◌, ◌≤◌, length, replicate};
ghost use Rattle.encoding.specs.Bytes.{bytes_of, number_of, all_zero, untested, parts_at};

use super::part::{Part, read_each};

// The highest phase, and the most steps taken, that a state has.
pub const LIMIT: u32 = 65535;

// The number of at most four bytes.
pub fn number(bytes: &[u8]) -> u32
    requires { length bytes.now ≤ 4 }
    ensures { result ≡ number_of bytes.now }
{
    let mut four = [0u8; 4];
    four[..bytes.len()].copy_from_slice(bytes);
    u32::from_le_bytes(four)
}

// A number of one byte: any byte is one.
impl Part for u8 {
    const SIZE: usize = 1;

    ghost SIZE = { 1 };

    ghost encode = { bytes_of 1 };

    ghost decode = { number_of };

    ghost passes = { untested };

    ghost readable = { untested };

    fn encodes(_bytes: &[u8]) -> bool {
        true
    }

    fn at(bytes: &[u8]) -> u8 {
        bytes[0]
    }

    fn put(self, out: &mut [u8]) {
        out[0] = self;
    }
}

// Of two, such as a body's offset.
impl Part for u16 {
    const SIZE: usize = 2;

    ghost SIZE = { 2 };

    ghost encode = { bytes_of 2 };

    ghost decode = { number_of };

    ghost passes = { untested };

    ghost readable = { untested };

    fn encodes(_bytes: &[u8]) -> bool {
        true
    }

    fn at(bytes: &[u8]) -> u16 {
        u16::from_le_bytes([bytes[0], bytes[1]])
    }

    fn put(self, out: &mut [u8]) {
        out.copy_from_slice(&self.to_le_bytes());
    }
}

// And of four, such as a cell.
impl Part for u32 {
    const SIZE: usize = 4;

    ghost SIZE = { 4 };

    ghost encode = { bytes_of 4 };

    ghost decode = { number_of };

    ghost passes = { untested };

    ghost readable = { untested };

    fn encodes(_bytes: &[u8]) -> bool {
        true
    }

    fn at(bytes: &[u8]) -> u32 {
        u32::from_le_bytes([bytes[0], bytes[1], bytes[2], bytes[3]])
    }

    fn put(self, out: &mut [u8]) {
        out.copy_from_slice(&self.to_le_bytes());
    }
}

// All cells.
pub fn cells_at(bytes: &[u8]) -> [u32; 16]
    requires { length bytes.now ≡ 64 }
    ensures { result ≡ parts_at 4 16 number_of bytes.now }
{
    let mut cells = [0u32; 16];
    read_each(bytes, &mut cells);
    cells
}

// Whether reserved bytes are 0.
pub fn are_zero(bytes: &[u8]) -> bool
    ensures { result ≡ all_zero bytes.now }
{
    bytes.iter().all(|byte| *byte == 0)
}

// Reserved bytes.
pub fn put_zeros(out: &mut [u8])
    ensures { out.new ≡ replicate (length out.old) 0 }
{
    out.fill(0);
}
