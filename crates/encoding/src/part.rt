// A kind of part: bodies, clock names, accumulators, activities and cells stand in the bytes of a state one after the other, each in as many bytes as its kind has.
ghost use Rattle.std.specs.Prelude.{◌≡◌, ◌*◌, ℕ, Bool, true, List, length};
ghost use Rattle.encoding.specs.Bytes.{encode_each, parts_at, parts_pass};

pub trait Part: Copy {
    // The bytes that it stands in.
    const SIZE: usize;

    ghost SIZE: { ℕ };

    ghost encode: { Self → List ℕ };

    ghost decode: { List ℕ → Self };

    ghost passes: { List ℕ → Bool };

    // The bytes that can be read as one: for most kinds, any.
    ghost readable: { List ℕ → Bool };

    // Whether bytes encode one.
    fn encodes(bytes: &[u8]) -> bool
        requires { length bytes.now ≡ SIZE }
        ensures { result ≡ passes bytes.now };

    // The one that bytes encode.
    fn at(bytes: &[u8]) -> Self
        requires bytes_len { length bytes.now ≡ SIZE }
        requires bytes_value { readable bytes.now ≡ true }
        ensures { result ≡ decode bytes.now };

    // Its bytes.
    fn put(self, out: &mut [u8])
        requires { length out.old ≡ SIZE }
        ensures { out.new ≡ encode self };
}

// Whether the bytes encode so many, one after the other. As `all` over `chunks_exact` it was not proved: what each chunk is stayed open.
pub fn each_encodes<P: Part>(bytes: &[u8], count: usize) -> bool
    requires { length bytes.now ≡ P.SIZE * count }
    ensures { result ≡ parts_pass P.SIZE count P.passes bytes.now }
{
    for i in 0..count {
        let at = P::SIZE * i;
        if !P::encodes(&bytes[at..at + P::SIZE]) {
            return false;
        }
    }
    true
}

// As many as there is room for, read from the bytes. A generic function cannot answer with an array of them: it would owe a bound on the array's memory.
pub fn read_each<P: Part>(bytes: &[u8], parts: &mut [P])
    requires bytes_len { length bytes.now ≡ P.SIZE * length parts.old }
    requires bytes_value { parts_pass P.SIZE (length parts.old) P.readable bytes.now ≡ true }
    ensures { parts.new ≡ parts_at P.SIZE (length parts.old) P.decode bytes.now }
{
    for (i, part) in parts.iter_mut().enumerate() {
        let at = P::SIZE * i;
        *part = P::at(&bytes[at..at + P::SIZE]);
    }
}

// Their bytes, one after the other.
pub fn put_each<P: Part>(parts: &[P], out: &mut [u8])
    requires { length out.old ≡ P.SIZE * length parts.now }
    ensures { out.new ≡ encode_each P.encode parts.now }
{
    for (i, part) in parts.iter().enumerate() {
        let at = P::SIZE * i;
        part.put(&mut out[at..at + P::SIZE]);
    }
}
