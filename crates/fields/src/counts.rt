// What a state counts: the steps taken, and the activities, clocks and accumulators made.
ghost use Rattle.rules.specs.declared.state.State.{State};
ghost use Rattle.fields.specs.Lent.{Reads, Writes, with_steps, with_activities, with_clocks, with_accumulators};

use super::bytes::{get, put};

pub fn steps_of(state: &[u8]) -> u16
    ensures { Reads (λ (s : State). s.steps) state.now result }
{
    get(state, 4, 0)
}

pub fn put_steps(state: &mut [u8], n: u16)
    ensures { Writes (λ (s : State). with_steps s n) state.old state.new }
{
    put(state, 4, u32::from(n));
}

pub fn activities_of(state: &[u8]) -> u8
    ensures { Reads (λ (s : State). s.activities) state.now result }
{
    get(state, 1, 0)
}

pub fn put_activities(state: &mut [u8], n: u8)
    ensures { Writes (λ (s : State). with_activities s n) state.old state.new }
{
    put(state, 1, n);
}

pub fn clocks_of(state: &[u8]) -> u8
    ensures { Reads (λ (s : State). s.clocks) state.now result }
{
    get(state, 2, 0)
}

pub fn put_clocks(state: &mut [u8], n: u8)
    ensures { Writes (λ (s : State). with_clocks s n) state.old state.new }
{
    put(state, 2, n);
}

pub fn accumulators_of(state: &[u8]) -> u8
    ensures { Reads (λ (s : State). s.accumulators) state.now result }
{
    get(state, 3, 0)
}

pub fn put_accumulators(state: &mut [u8], n: u8)
    ensures { Writes (λ (s : State). with_accumulators s n) state.old state.new }
{
    put(state, 3, n);
}
