// The fault of READ and RESET.
ghost use Rattle.std.specs.Prelude.{◌<◌};
ghost use Rattle.rules.specs.Clocks.{holds_some};
ghost use Rattle.fields.specs.Lent.{ReadsAct};
ghost use Rattle.rules.specs.State.{fault_in};
ghost use Rattle.moves.specs.Moves.{ReadFault};

use fields::accumulators::accumulator_at;
use fields::activities::name_at;
use fields::holds::hold_at;
use parts::checks::is_held;
use rules::state::Fault;

// Whether the activity holds a clock.
fn holds_some(state: &[u8], i: usize) -> bool
    ensures { ReadsAct holds_some state.now i result }
{
    (0..8).any(|k| is_held(hold_at(state, i, k).registration))
}

// F5, F6 and F7, tried in this order.
pub fn read_fault(state: &[u8], i: usize, n: usize) -> Option<Fault>
    ensures { n < 8 → ReadFault state.now i n (fault_in result) }
{
    let entry = name_at(state, i, n) as usize;
    if entry == 0 {
        return Some(Fault::F5);
    }
    let c = accumulator_at(state, entry - 1);
    if c.owner as usize != i {
        return Some(Fault::F6);
    }
    if holds_some(state, i) {
        return Some(Fault::F7);
    }
    None
}
