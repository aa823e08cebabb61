// The standing sheet as bytes.
ghost use Rattle.std.specs.Prelude.{◌≡◌, cond, length, replicate};
ghost use Rattle.calls.specs.Calls.{fits_sheet};
ghost use Rattle.calls.specs.Sheet.{Tells};

use turns::sheet::sheet_row;

// The bytes of the rows, by activity number.
pub fn put_rows(state: &[u8], out: &mut [u8])
    requires { length out.old ≡ 1024 }
    ensures { Tells state.now out.new }
{
    for i in 0..64 {
        let at = 16 * i;
        out[at..at + 16].copy_from_slice(&sheet_row(state, i));
    }
}

// A sheet of zeros; a buffer of another length stays as it was.
#[tactic(auto, unfolding(crate::specs::Calls::fits_sheet))]
pub fn put_none(out: &mut [u8])
    ensures { out.new ≡ cond (fits_sheet out.old) (replicate 1024 0) out.old }
{
    if out.len() == 1024 {
        out.fill(0);
    }
}
