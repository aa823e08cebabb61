// ASYNC.
ghost use Rattle.program.specs.declared.command.Command.TheVariants.{Async};
ghost use Rattle.bodies.specs.Gives.{Gives};
ghost use Rattle.rules.specs.State.{taken_number};
ghost use Rattle.moves.specs.Moves.{Does, TurnsIn};

use super::lend::async_fault;
use fields::activities::{name_at, put_depth, put_name, put_register, put_spawner, register_at};
use fields::counts::{activities_of, put_activities};
use fields::frames::put_frame;
use fields::holds::{hold_at, put_hold};
use moves::{Taken, fail, go_on, stop, unspent};
use parts::holds::lends;
use places::accepted::Accepted;
use program::refusal::Refusal;
use rules::state::{Frame, Hold, Registration, Status};

// The accumulator names, and the clocks of the mask, live.
fn give(state: &mut [u8], i: usize, n: usize, m: u8)
    ensures { Gives m state.old state.new i n }
{
    for k in 0..8 {
        let v = name_at(state, i, k);
        put_name(state, n, k, v);
        if lends(m, k) {
            let lent = Hold {
                registration: Registration::Live,
                ..hold_at(state, i, k)
            };
            put_hold(state, n, k, lent);
        }
    }
}

// The step of an ASYNC that meets no fault: all of the child's entry is written. Its spawner is below 64; of a number that is no activity's the lowest byte is written.
fn fork(work: u64, state: &mut [u8], i: usize, b: u8, m: u8) -> Taken
    ensures { Does (Async b m) state.old state.new work i (taken_number result) }
{
    unspent(state, work)?;
    let made = activities_of(state);
    if 64 <= made {
        return Err(Refusal::Spent);
    }
    let n = made as usize;
    let register = register_at(state, i);
    let begun = Frame {
        offset: 0,
        body: b,
        runs: 0,
        first: 0,
    };
    stop(state, n, Status::Running);
    put_register(state, n, register);
    put_spawner(state, n, (i % 256) as u8);
    put_frame(state, n, 0, begun);
    put_depth(state, n, 1);
    give(state, i, n, m);
    put_activities(state, made + 1);
    go_on(state, i, 3)
}

// ASYNC: a fault, or the child.
pub fn spawn(table: &Accepted<'_>, state: &mut [u8], i: usize, b: u8, m: u8) -> Taken
    ensures { TurnsIn table.now.bytes.now (Async b m) state.old state.new table.now.work i (taken_number result) }
{
    match async_fault(table, state, i, m) {
        Some(f) => fail(table.work, state, i, f),
        None => fork(table.work, state, i, b, m),
    }
}
