// Number 13 over the bytes of a state.
ghost use Rattle.std.specs.Prelude.{◌≤◌, ◌≡◌, length};
ghost use Rattle.program.specs.Bodies.{program_of};
ghost use Rattle.wellformed.specs.Passing.{passes, head_passes, accumulator_passes, accumulators_pass, activities_pass};

use super::made::Made;
use super::marks::Marked;
use super::within::spawned_passes;
use entries::entry::Entry;
use entries::{is_zero, steps_in};
use places::accepted::Accepted;

// The bytes of a state.
const LENGTH: usize = 13776;

// The limits of the counts.
const ACTIVITIES: u8 = 64;

const CLOCKS: u8 = 16;

const ACCUMULATORS: u8 = 16;

const STEPS: u32 = 65535;

// The highest number of an operator.
const OPERATORS: u8 = 2;

// The fields before the cells: the version, the counts and the reserved bytes.
#[tactic(auto, using(crate::proofs::Fields::head_fails, crate::proofs::Fields::head_left))]
fn head_passes(table: &Accepted<'_>, state: &[u8]) -> bool
    requires { length state.now ≡ 13776 }
    ensures { result ≡ head_passes (program_of table.now.bytes.now) state.now }
{
    if state[0] != 1 {
        return false;
    }
    if ACTIVITIES < state[1] {
        return false;
    }
    if CLOCKS < state[2] {
        return false;
    }
    if ACCUMULATORS < state[3] {
        return false;
    }
    let steps = steps_in(state);
    if STEPS < steps {
        return false;
    }
    if table.work < steps as u64 {
        return false;
    }
    is_zero(&state[8..16])
}

// An accumulator that was made: its operator, its reserved bytes, its owner.
#[tactic(auto, using(crate::proofs::Fields::operator_fails, crate::proofs::Fields::owner_fails, crate::proofs::Fields::accumulator_left))]
fn accumulator_passes(made: Made, bytes: &[u8]) -> bool
    requires { length bytes.now ≡ 24 }
    ensures { result ≡ accumulator_passes made bytes.now }
{
    if OPERATORS < bytes[5] {
        return false;
    }
    if made.activities <= bytes[4] {
        return false;
    }
    is_zero(&bytes[6..24])
}

// The accumulators: each that was made is as it should be, all bytes behind them are 0.
fn accumulators_pass(made: Made, bytes: &[u8]) -> bool
    requires { (length bytes.now ≡ 384) × (made.accumulators ≤ 16) }
    ensures { result ≡ accumulators_pass made bytes.now }
{
    let many = made.accumulators as usize;
    (0..many).all(|i| accumulator_passes(made, &bytes[24 * i..24 * i + 24]))
        && is_zero(&bytes[24 * many..])
}

// The activities: each that was spawned is as it should be, all bytes behind them are 0. One function for these and the accumulators would take their number,
// their size and their test, and be no shorter.
fn activities_pass(marked: &Marked<'_, '_>, made: Made, bytes: &[u8]) -> bool
    requires { (length bytes.now ≡ 13312) × (made.activities ≤ 64) }
    ensures { result ≡ activities_pass (program_of marked.now.table.bytes.now) made bytes.now }
{
    let spawned = made.activities as usize;
    (0..spawned).all(|i| {
        let entry = Entry {
            bytes: &bytes[208 * i..208 * i + 208],
        };
        spawned_passes(marked, made, i, &entry)
    }) && is_zero(&bytes[208 * spawned..])
}

// Whether bytes encode a state that is fit for a table that was read.
#[tactic(auto, using(crate::proofs::PassLaws::other_length, crate::proofs::PassLaws::head_unfit, crate::proofs::PassLaws::accumulators_unfit, crate::proofs::PassLaws::activities_left, crate::proofs::Fields::head_facts))]
pub fn state_passes(marked: &Marked<'_, '_>, state: &[u8]) -> bool
    ensures { result ≡ passes (program_of marked.now.table.bytes.now) state.now }
{
    if state.len() != LENGTH {
        return false;
    }
    if !head_passes(&marked.table, state) {
        return false;
    }
    let made = Made {
        activities: state[1],
        clocks: state[2],
        accumulators: state[3],
    };
    if !accumulators_pass(made, &state[80..464]) {
        return false;
    }
    activities_pass(marked, made, &state[464..13776])
}
