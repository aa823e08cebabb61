// Those inside a finish: END of its body waits for who has not ended, and passes a fault on. READ and RESET wait for the descendants, with `first` 0.
ghost use Rattle.encoding.specs.Encode.{status_byte};
ghost use Rattle.fields.specs.Lent.{ReadsAct};
ghost use Rattle.rules.specs.declared.state.Activity.{Activity};
ghost use Rattle.waits.specs.Waits.{Sees};

use fields::activities::spawner_at;
use fields::bytes::get1;
use fields::counts::activities_of;

// How many inside have not ended, and whether one has faulted: two facts of one pass, each of which holds without the other.
#[derive(Clone, Copy, Debug, Default)]
pub struct Inside {
    pub unended: u8,
    pub faulted: bool,
}

// The byte of an activity's standing: 0 running, 1 at a meeting, 2 ended, 3 faulted. Both passes read it of every activity, and a pass that makes a Status of it and
// of the fault's byte takes a fifth longer.
pub(crate) fn standing_at(state: &[u8], x: usize) -> u8
    ensures { ReadsAct (λ (a : Activity). status_byte a.status) state.now x result }
{
    if 64 <= x {
        return 0;
    }
    get1(state, 468 + 208 * x)
}

// Those inside, in one pass upwards: an activity's spawner is lower than it. Who is inside was spawned by the owner, and not before `first`, or by one inside.
pub fn inside_of(state: &[u8], w: usize, first: usize) -> Inside
    ensures { Sees state.now w first result }
{
    let made = activities_of(state) as usize;
    if 64 < made || made <= w {
        return Inside::default();
    }
    let start = first.max(w + 1);
    if made <= start {
        return Inside::default();
    }
    let mut inside = [false; 64];
    let mut unended: u8 = 0;
    let mut faulted = false;
    for x in start..made {
        let spawner = spawner_at(state, x) as usize;
        if x <= spawner {
            return Inside::default();
        }
        // Both sides are read, so that nothing branches: a pass with `||` takes nearly twice as long.
        let within = (spawner == w) | inside[spawner];
        inside[x] = within;
        if within {
            let standing = standing_at(state, x);
            if standing < 2 {
                unended += 1;
            } else if standing == 3 {
                faulted = true;
            }
        }
    }
    Inside { unended, faulted }
}
