// FETCH, STORE and ADD.
ghost use Rattle.std.specs.Prelude.{◌<◌};
ghost use Rattle.std.specs.Fn.{FnOnceReturnsAtMut};
ghost use Rattle.program.specs.declared.command.Command.TheVariants.{Fetch, Store, Add};
ghost use Rattle.rules.specs.State.{taken_number};
ghost use Rattle.moves.specs.Moves.{Turns};
ghost use Rattle.values.specs.Touched.{Touches, TouchesBy, TurnsOnCell};

use fields::activities::{put_register, register_at};
use fields::cells::{cell_at, put_cell};
use moves::{Taken, go_on, unspent};
use program::command::Command;

// The register becomes the cell.
pub fn fetch_cell(state: &mut [u8], i: usize, d: usize)
    ensures { d < 16 → Touches (Fetch d) state.old state.new i }
{
    let v = cell_at(state, d);
    put_register(state, i, v);
}

// The cell becomes the register.
pub fn store_cell(state: &mut [u8], i: usize, d: usize)
    ensures { d < 16 → Touches (Store d) state.old state.new i }
{
    let register = register_at(state, i);
    put_cell(state, d, register);
}

// The cell becomes the cell plus the register modulo 2^32.
pub fn add_cell(state: &mut [u8], i: usize, d: usize)
    ensures { d < 16 → Touches (Add d) state.old state.new i }
{
    let v = cell_at(state, d);
    let register = register_at(state, i);
    put_cell(state, d, v.wrapping_add(register));
}

// A command on a cell: FETCH, STORE or ADD.
pub(crate) fn touch(state: &mut [u8], i: usize, command: Command)
    ensures { TouchesBy command state.old state.new i }
{
    match command {
        Command::Fetch(d) => fetch_cell(state, i, d as usize),
        Command::Store(d) => store_cell(state, i, d as usize),
        Command::Add(d) => add_cell(state, i, d as usize),
        _ => {}
    }
}

// A command on a cell, as a turn.
fn on_cell<F: FnOnce(&mut [u8])>(work: u64, state: &mut [u8], i: usize, change: F) -> Taken
    requires { F.IsAlwaysCallable change }
    ensures { TurnsOnCell (λ b c. FnOnceReturnsAtMut F.FnOnce change b tt c) state.old state.new work i (taken_number result) }
{
    unspent(state, work)?;
    change(state);
    go_on(state, i, 2)
}

// FETCH: the register becomes the cell.
pub fn fetch(work: u64, state: &mut [u8], i: usize, d: usize) -> Taken
    ensures { d < 16 → Turns (Fetch d) state.old state.new work i (taken_number result) }
{
    on_cell(work, state, i, |s| fetch_cell(s, i, d))
}

// STORE: the cell becomes the register.
pub fn store(work: u64, state: &mut [u8], i: usize, d: usize) -> Taken
    ensures { d < 16 → Turns (Store d) state.old state.new work i (taken_number result) }
{
    on_cell(work, state, i, |s| store_cell(s, i, d))
}

// ADD: the cell becomes the cell plus the register modulo 2^32.
pub fn add(work: u64, state: &mut [u8], i: usize, d: usize) -> Taken
    ensures { d < 16 → Turns (Add d) state.old state.new work i (taken_number result) }
{
    on_cell(work, state, i, |s| add_cell(s, i, d))
}
