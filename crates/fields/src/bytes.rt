// The parts in the lent bytes of a state, at a place: numbers of 1, 2 or 4 bytes, bodies, clock names and accumulators. All total.
ghost use Rattle.std.specs.Prelude.{◌≡◌, ◌≤◌, ◌<◌, ◌+◌, ◌*◌, true, List, ℕ, length};
ghost use Rattle.encoding.specs.Bytes.{part};
ghost use Rattle.fields.specs.Lent.{Gets, Written};

use encoding::part::Part;

// The part at a place; `other` where the bytes are no state's, or the part does not lie within them.
pub fn get<P: Part>(state: &[u8], at: usize, other: P) -> P
    requires { (b : List ℕ) → P.readable b ≡ true }
    ensures { length state.now ≡ 13776 → at + P.SIZE ≤ 13776 → result ≡ P.decode (part state.now at P.SIZE) }
{
    if state.len() == 13776 && at <= 13776 && P::SIZE <= 13776 - at {
        P::at(&state[at..at + P::SIZE])
    } else {
        other
    }
}

// A part is written at a place, where it lies within the bytes of a state.
pub fn put<P: Part>(state: &mut [u8], at: usize, value: P)
    ensures { Written P.SIZE state.old state.new at (P.encode value) }
{
    if state.len() == 13776 && at <= 13776 && P::SIZE <= 13776 - at {
        value.put(&mut state[at..at + P::SIZE]);
    }
}

// The part that stands n bytes on in the entry of activity i.
pub fn get_own<P: Part>(state: &[u8], i: usize, n: usize, other: P) -> P
    requires { (b : List ℕ) → P.readable b ≡ true }
    ensures { length state.now ≡ 13776 → i < 64 → n < 208 → n + P.SIZE ≤ 208 → result ≡ P.decode (part state.now (464 + (208 * i + n)) P.SIZE) }
{
    if i < 64 && n < 208 {
        get(state, 464 + (208 * i + n), other)
    } else {
        other
    }
}

pub fn put_own<P: Part>(state: &mut [u8], i: usize, n: usize, value: P)
    ensures { i < 64 → n < 208 → Written P.SIZE state.old state.new (464 + (208 * i + n)) (P.encode value) }
{
    if i < 64 && n < 208 {
        put(state, 464 + (208 * i + n), value);
    }
}

// A byte.
pub fn get1(state: &[u8], at: usize) -> u8
    ensures { Gets 1 state.now at result }
{
    get(state, at, 0)
}
