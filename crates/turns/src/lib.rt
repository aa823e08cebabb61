// Turns in the lent bytes: numbers 14 to 16, or the command's function, and orders of turns; the ready set and the standing sheet.
#![tactic(auto)]

ghost use Rattle.std.specs.Prelude.{◌≡◌, ◌≢◌, Ok, Err};
ghost use Rattle.std.specs.Fn.{FnOnceReturnsAtMut};
ghost use Rattle.rules.specs.State.{taken_number};
ghost use Rattle.program.specs.declared.refusal.Refusal.TheVariants.{Waits};
ghost use Rattle.turns.specs.Turns.{CarriesIn, TurnsAny};

use barriers::clock::clock;
use barriers::next::next;
use barriers::rehold::{drop, resume};
use bodies::choose::choose;
use bodies::end::end;
use bodies::finish::finish;
use bodies::repeat::repeat;
use bodies::spawn::spawn;
use look::standing_on;
use moves::Taken;
use places::accepted::Accepted;
use program::command::Command;
use program::refusal::Refusal;
use values::acc::acc;
use values::atom::atom;
use values::cells::{add, fetch, store};
use values::offer::offer;
use values::put::put;
use values::read::read;
use values::reset::reset;
use waits::waiting::{end_inside, next_awaits, own_awaits};

pub mod look; // look.rt: who can step, and how many an activity waits for
pub mod ready; // ready.rt: the ready set
pub mod sheet; // sheet.rt: the standing sheet
pub mod follow; // follow.rt: an order of turns

// What a turn answers, and how many its activity waits for.
#[derive(Clone, Copy, Debug, PartialEq, Eq)]
pub struct Reply {
    pub answer: Taken,
    pub awaited: u8,
}

// The answer to one that waits for nobody.
fn alone(answer: Taken) -> Reply
    ensures { (result.answer ≡ answer) × (result.awaited ≡ 0) }
{
    Reply { answer, awaited: 0 }
}

// The number of an answer, as an order's buffer of bytes takes it: 0 for a step, 100 plus f for fault f, or that of the refusal.
pub fn number(answer: Taken) -> u8
    ensures { result ≡ taken_number answer }
{
    match answer {
        Ok(None) => 0,
        Ok(Some(fault)) => 100 + fault as u8,
        Err(refusal) => refusal.number(),
    }
}

// The turn of one who waits for so many: number 16, or the command's function where that is nobody.
fn meet<F: FnOnce(&mut [u8]) -> Taken>(awaited: u8, state: &mut [u8], go: F) -> Reply
    requires { F.IsAlwaysCallable go }
    ensures waits { awaited ≢ 0 → (result.answer ≡ Err Waits) × (result.awaited ≡ awaited) × (state.new ≡ state.old) }
    ensures goes { awaited ≡ 0 → FnOnceReturnsAtMut F.FnOnce go state.old result.answer state.new × (result.awaited ≡ 0) }
{
    if awaited != 0 {
        return Reply {
            answer: Err(Refusal::Waits),
            awaited,
        };
    }
    alone(go(state))
}

// The command that the activity stands on: a case for each, since the commands are a closed enum; as closures they would have to be stored.
fn carry_out(table: &Accepted<'_>, state: &mut [u8], i: usize, command: Command) -> Reply
    ensures { CarriesIn table.now.bytes.now command state.old state.new i result }
{
    let work = table.work;
    match command {
        Command::End => {
            let seen = end_inside(table, state, i);
            meet(seen.unended, state, |s| end(work, s, i, seen.faulted))
        }
        Command::Next => meet(next_awaits(state, i), state, |s| next(work, s, i)),
        Command::Clock(c) => alone(clock(work, state, i, c as usize)),
        Command::Resume(c) => alone(resume(work, state, i, c as usize)),
        Command::Drop(c) => alone(drop(work, state, i, c as usize)),
        Command::Async(b, m) => alone(spawn(table, state, i, b, m)),
        Command::Finish(b) => alone(finish(work, state, i, b)),
        Command::Repeat(n, b) => alone(repeat(work, state, i, n, b)),
        Command::Acc(n, o) => alone(acc(work, state, i, n as usize, o)),
        Command::Offer(n) => alone(offer(work, state, i, n as usize)),
        Command::Read(n) => {
            let n = n as usize;
            meet(own_awaits(state, i, n), state, |s| read(work, s, i, n))
        }
        Command::Reset(n) => {
            let n = n as usize;
            meet(own_awaits(state, i, n), state, |s| reset(work, s, i, n))
        }
        Command::Put(v) => alone(put(work, state, i, v)),
        Command::Fetch(d) => alone(fetch(work, state, i, d as usize)),
        Command::Store(d) => alone(store(work, state, i, d as usize)),
        Command::Add(d) => alone(add(work, state, i, d as usize)),
        Command::Atom(k) => alone(atom(table, state, i, k)),
        Command::Choose(b) => alone(choose(work, state, i, b)),
    }
}

// A turn of activity i, whichever number it is: numbers 14 to 17, or its step.
pub fn turn(table: &Accepted<'_>, state: &mut [u8], i: usize) -> Reply
    ensures { TurnsAny table.now.bytes.now state.old state.new i result }
{
    match standing_on(table, state, i) {
        Ok(command) => carry_out(table, state, i, command),
        Err(refusal) => alone(Err(refusal)),
    }
}
