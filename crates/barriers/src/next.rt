// NEXT: arrival, and passing.
ghost use Rattle.std.specs.Prelude.{◌≡◌, ◌≤◌};
ghost use Rattle.program.specs.declared.command.Command.TheVariants.{Next};
ghost use Rattle.rules.specs.declared.state.Activity.{Activity};
ghost use Rattle.rules.specs.Clocks.{pass};
ghost use Rattle.moves.specs.Exceeding.{is_last, some_last};
ghost use Rattle.fields.specs.Lent.{ReadsAct};
ghost use Rattle.rules.specs.State.{taken_number};
ghost use Rattle.moves.specs.Moves.{Turns};
ghost use Rattle.barriers.specs.Mapped.{Maps};

use fields::activities::{put_status, status_at};
use fields::holds::{hold_at, put_hold};
use moves::{Taken, counted, go_on, unspent};
use parts::checks::{is_at_barrier, is_held};
use parts::holds::{quiesce, revived};
use program::refusal::Refusal;
use rules::state::{Hold, Status};

// Whether a held clock is in the last phase.
fn is_last(h: Hold) -> bool
    ensures { result ≡ is_last h }
{
    is_held(h.registration) && h.phase == 65535
}

// Whether one of the eight is.
fn some_last(state: &[u8], i: usize) -> bool
    ensures { ReadsAct (λ (a : Activity). some_last a.holds) state.now i result }
{
    (0..8).any(|k| is_last(hold_at(state, i, k)))
}

// One clock is passed.
fn passed(h: Hold) -> Hold
    ensures { (pass h).phase ≤ 65535 → result ≡ pass h }
{
    if !is_held(h.registration) {
        return h;
    }
    Hold {
        phase: h.phase.wrapping_add(1),
        registration: revived(h.registration),
        ..h
    }
}

// Each own clock is changed: quiesced at arrival, and passed later.
fn change_all<F: Fn(Hold) -> Hold>(state: &mut [u8], i: usize, change: F)
    requires { F.IsAlwaysCallable change }
    ensures { Maps (F.post change) state.old state.new i }
{
    for k in 0..8 {
        let h = hold_at(state, i, k);
        if is_held(h.registration) {
            put_hold(state, i, k, change(h));
        }
    }
}

// NEXT: passing of who is at a meeting, and arrival of others.
pub fn next(work: u64, state: &mut [u8], i: usize) -> Taken
    ensures { Turns Next state.old state.new work i (taken_number result) }
{
    unspent(state, work)?;
    if is_at_barrier(status_at(state, i)) {
        if some_last(state, i) {
            return Err(Refusal::Spent);
        }
        change_all(state, i, passed);
        put_status(state, i, Status::Running);
        return go_on(state, i, 1);
    }
    change_all(state, i, quiesce);
    put_status(state, i, Status::AtBarrier);
    counted(state)
}
