// The first states, written in place.
ghost use Rattle.std.specs.Prelude.{◌≡◌, cond, eqb, length};
ghost use Rattle.rules.specs.State.{zero_state};
ghost use Rattle.rules.specs.Steps.{start_state};
ghost use Rattle.encoding.specs.Encode.{encode_state};

use fields::activities::put_depth;
use fields::counts::put_activities;

// The state of zeros: the version, and 0 everywhere else. A buffer of another length stays as it was.
pub fn put_none(state: &mut [u8])
    ensures { state.new ≡ cond (eqb (length state.old) 13776) (encode_state zero_state) state.old }
{
    if state.len() == 13776 {
        state.fill(0);
        state[0] = 1;
    }
}

// The start state: main is spawned and has one body.
pub fn put_start(state: &mut [u8])
    ensures { state.new ≡ cond (eqb (length state.old) 13776) (encode_state start_state) state.old }
{
    if state.len() == 13776 {
        put_none(state);
        put_activities(state, 1);
        put_depth(state, 0, 1);
    }
}
