// The standing sheet by value: for each activity and clock number 0 not held, 1 live, 2 quiesced.
ghost use Rattle.fields.specs.Lent.{Reads};
ghost use Rattle.rules.specs.Steps.{sheet_of};

use turns::sheet::sheet_row;

// The sheet: a row for each activity.
pub fn sheet_of(state: &[u8]) -> [[u8; 16]; 64]
    ensures { Reads sheet_of state.now result }
{
    let mut rows = [[0u8; 16]; 64];
    for i in 0..64 {
        rows[i] = sheet_row(state, i);
    }
    rows
}
