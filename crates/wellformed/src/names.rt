// The clock names in an activity's bytes.
ghost use Rattle.std.specs.Prelude.{ℕ, ◌<◌, true, ◌&&◌, not, ◌≡◌};
ghost use Rattle.rules.specs.Search.{all_below};
ghost use Rattle.rules.specs.State.{hold};
ghost use Rattle.rules.specs.Clocks.{holds_some};
ghost use Rattle.rules.specs.WellFormed.{hold_fits, names_fit};
ghost use Rattle.encoding.specs.Bytes.{part, parts_pass};
ghost use Rattle.encoding.specs.Decode.{activity_at, hold_encodes};
ghost use Rattle.entries.specs.Entries.{hold_bytes};
ghost use Rattle.wellformed.specs.Entries.{are_apart};
ghost use Rattle.wellformed.specs.Passing.{holds_pass};

use super::clocks::are_apart;
use entries::entry::Entry;
use parts::checks::is_held;
use rules::state::Hold;

// The limit of a phase.
const PHASES: u16 = 65535;

// Clock name k: most are free, and then all 0; of one that is not, the phase is within its limit and the clock is made.
fn hold_passes(made: u8, a: &Entry<'_>, k: usize) -> bool
    requires { k < 8 }
    ensures { result ≡ (hold_encodes (hold_bytes a.now.bytes.now k) && hold_fits 65535 made (activity_at a.now.bytes.now) k) }
{
    if a.hold_zero(k) {
        return true;
    }
    if !a.hold_whole(k) {
        return false;
    }
    let h = a.hold(k);
    if !is_held(h.registration) {
        return false;
    }
    h.phase <= PHASES && h.clock < made
}

// The clock names.
pub fn holds_pass(made: u8, a: &Entry<'_>) -> bool
    ensures { result ≡ holds_pass made a.now.bytes.now }
{
    (0..8).all(|k| hold_passes(made, a, k))
}

#[derive(Clone, Copy)]
pub struct Named<'a> {
    pub entry: Entry<'a>,
    // Its bytes encode clock names.
    pub ghost whole: { parts_pass 8 8 hold_encodes (part entry.bytes.now 16 64) ≡ true },
}

impl<'a> Named<'a> {
    // Clock name k.
    fn hold(&self, k: usize) -> Hold
        requires { k < 8 }
        ensures { result ≡ hold (activity_at self.now.entry.bytes.now) k }
    {
        self.entry.hold(k)
    }

    // No name before name k is for its clock, where it has one.
    fn name_fits(&self, k: usize) -> bool
        requires { k < 8 }
        ensures { result ≡ all_below k (λ (j : ℕ). are_apart (hold (activity_at self.now.entry.bytes.now) j) (hold (activity_at self.now.entry.bytes.now) k)) }
    {
        let own = self.hold(k);
        !is_held(own.registration) || (0..k).all(|j| are_apart(self.hold(j), own))
    }

    // One activity has no two names for one clock.
    pub fn names_fit(&self) -> bool
        ensures { result ≡ names_fit (activity_at self.now.entry.bytes.now) }
    {
        (0..8).all(|k| self.name_fits(k))
    }

    // Whether it holds no clock.
    pub fn holds_none(&self) -> bool
        ensures { result ≡ not (holds_some (activity_at self.now.entry.bytes.now)) }
    {
        (0..8).all(|k| !is_held(self.hold(k).registration))
    }
}
