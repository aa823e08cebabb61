// Passing waits for the activities that are behind on an own clock.
ghost use Rattle.std.specs.Prelude.{◌≡◌, length};
ghost use Rattle.waits.specs.Waits.{is_unended, OwnPlaces, Late, Behind};
ghost use Rattle.fields.specs.Lent.{ReadsAct};

use super::inside::standing_at;
use fields::counts::activities_of;
use fields::holds::hold_at;
use parts::checks::is_held;

// The own places by clock number: twice the phase and 2, which is the place of one quiesced in it; 0 for a clock that is not held.
fn own_places(state: &[u8], i: usize) -> [usize; 16]
    ensures { OwnPlaces state.now i result }
{
    let mut own = [0usize; 16];
    for n in 0..8 {
        let hold = hold_at(state, i, n);
        let clock = hold.clock as usize;
        if is_held(hold.registration) && clock < 16 {
            own[clock] = 2 * hold.phase as usize + 2;
        }
    }
    own
}

// Whether the clock name in these 8 bytes has a place below the own one: twice its phase, and 1 where live, 2 where quiesced. The bytes are read as they lie: a count
// that makes a Hold of each takes twice as long.
fn is_late(hold: &[u8], own: &[usize; 16]) -> bool
    requires { length hold.now ≡ 8 }
    ensures { Late own.now hold.now result }
{
    let registration = hold[5] as usize;
    if registration == 0 {
        return false;
    }
    let clock = hold[4] as usize;
    if 16 <= clock {
        return false;
    }
    let phase = u16::from_le_bytes([hold[0], hold[1]]) as usize;
    2 * phase + registration < own[clock]
}

// Whether an activity has neither ended nor faulted.
fn is_unended(state: &[u8], x: usize) -> bool
    ensures { ReadsAct is_unended state.now x result }
{
    standing_at(state, x) < 2
}

// How many activities are behind on an own clock. Each is counted once: the loop over its names is left at the first that is late. One that has ended holds nothing.
pub fn count_behind(state: &[u8], i: usize) -> u8
    ensures { Behind state.now i result }
{
    if state.len() != 13776 {
        return 0;
    }
    let made = activities_of(state) as usize;
    if 64 < made {
        return 0;
    }
    let own = own_places(state, i);
    let mut count: u8 = 0;
    'holders: for x in 0..made {
        if is_unended(state, x) {
            for k in 0..8 {
                let at = 480 + 208 * x + 8 * k;
                if is_late(&state[at..at + 8], &own) {
                    count += 1;
                    continue 'holders;
                }
            }
        }
    }
    count
}
