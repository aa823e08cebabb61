// The standing sheet: for each activity and clock number 0 not held, 1 live, 2 quiesced.
ghost use Rattle.rules.specs.declared.state.Activity.{Activity};
ghost use Rattle.fields.specs.Lent.{ReadsAct};
ghost use Rattle.turns.specs.Sheet.{row_of};

use fields::holds::hold_at;
use parts::checks::is_held;

// One activity's row. Names are entered from the last to the first, so that the first on a clock stands.
pub fn sheet_row(state: &[u8], i: usize) -> [u8; 16]
    ensures { ReadsAct (λ (a : Activity). row_of a.holds) state.now i result }
{
    let mut row = [0u8; 16];
    for n in (0..8).rev() {
        let hold = hold_at(state, i, n);
        let clock = hold.clock as usize;
        if is_held(hold.registration) && clock < 16 {
            row[clock] = hold.registration as u8;
        }
    }
    row
}
