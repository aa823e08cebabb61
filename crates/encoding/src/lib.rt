// The state as bytes, for a host that is no Rattle program: the layout of docs/STATE-BYTES.md, both ways.
#![tactic(auto)]

ghost use Rattle.std.specs.Prelude.{◌≡◌, cond, eqb, length};
ghost use Rattle.encoding.specs.Encode.{encode_state};
ghost use Rattle.encoding.specs.Decode.{decoded_of};

use rules::state::State;

pub mod numbers; // numbers.rt: numbers of one, two and four bytes, and reserved bytes
pub mod part; // part.rt: a kind of part, and the loops over the parts that stand one after the other
pub mod frames; // frames.rt: the bodies on a stack
pub mod holds; // holds.rt: the clock names
pub mod accumulators; // accumulators.rt: the accumulators
pub mod activities; // activities.rt: the activities
mod fields; // fields.rt: the fields of a state

// The state that bytes encode, if they encode one.
pub fn decode(bytes: &[u8]) -> Option<State>
    ensures { result ≡ decoded_of bytes.now }
{
    if bytes.len() == 13776 && fields::fields_encode(bytes) {
        Some(fields::state_at(bytes))
    } else {
        None
    }
}

// The bytes of a state, into a buffer of 13,776 bytes; another buffer stays as it was.
pub fn encode(s: State, out: &mut [u8])
    ensures { out.new ≡ cond (eqb (length out.old) 13776) (encode_state s) out.old }
{
    if out.len() == 13776 {
        fields::put_state(s, out);
    }
}
