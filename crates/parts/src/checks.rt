// Tests of a status, of a registration and of a clock name that is free.
ghost use Rattle.std.specs.Prelude.{◌≡◌};
ghost use Rattle.rules.specs.State.{is_ended, is_at_barrier};
ghost use Rattle.rules.specs.Clocks.{is_held, is_live};
ghost use Rattle.rules.specs.WellFormed.{is_no_hold};

use super::empty::no_hold;
use rules::state::{Hold, Registration, Status};

// A faulted activity counts as ended.
pub fn is_ended(status: Status) -> bool
    ensures { result ≡ is_ended status }
{
    matches!(status, Status::Ended | Status::Faulted(_))
}

pub fn is_at_barrier(status: Status) -> bool
    ensures { result ≡ is_at_barrier status }
{
    matches!(status, Status::AtBarrier)
}

pub fn is_held(registration: Registration) -> bool
    ensures { result ≡ is_held registration }
{
    matches!(registration, Registration::Live | Registration::Quiesced)
}

pub fn is_live(registration: Registration) -> bool
    ensures { result ≡ is_live registration }
{
    matches!(registration, Registration::Live)
}

// Whether a hold is all 0.
pub fn is_no_hold(hold: Hold) -> bool
    ensures { result ≡ is_no_hold hold }
{
    hold == no_hold()
}
