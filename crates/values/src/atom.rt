// ATOM.
ghost use Rattle.std.specs.Prelude.{◌+◌};
ghost use Rattle.program.specs.declared.command.Command.TheVariants.{Atom};
ghost use Rattle.rules.specs.State.{taken_number};
ghost use Rattle.moves.specs.Moves.{TurnsIn};
ghost use Rattle.values.specs.Touched.{TouchesAll, TouchesIn};

use super::cells::touch;
use fields::activities::depth_at;
use fields::frames::frame_at;
use moves::{Taken, go_on, unspent};
use places::accepted::Accepted;
use program::reading::known;
use rules::state::Frame;

// So many commands, two bytes each, in the slice from a body's first command.
fn touch_each(code: &[u8], offset: u16, k: u8, state: &mut [u8], i: usize)
    ensures { TouchesAll code.now (offset + 2) k state.old state.new i }
{
    for j in 0..k as usize {
        touch(state, i, known(code, offset as usize + 2 + 2 * j));
    }
}

// The commands that belong to the ATOM that a frame stands on.
fn touch_all(table: &Accepted<'_>, f: Frame, k: u8, state: &mut [u8], i: usize)
    ensures { TouchesIn table.now.bytes.now f k state.old state.new i }
{
    let Some(&first) = table.starts.get(f.body as usize) else {
        return;
    };
    let Some(code) = table.bytes.get(first..) else {
        return;
    };
    touch_each(code, f.offset, k, state, i);
}

// ATOM: the k commands that follow, in one step.
pub fn atom(table: &Accepted<'_>, state: &mut [u8], i: usize, k: u8) -> Taken
    ensures { TurnsIn table.now.bytes.now (Atom k) state.old state.new table.now.work i (taken_number result) }
{
    unspent(state, table.work)?;
    let top = (depth_at(state, i) as usize).saturating_sub(1);
    let f = frame_at(state, i, top);
    touch_all(table, f, k, state, i);
    go_on(state, i, 2 + 2 * k as u16)
}
