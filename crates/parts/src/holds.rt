// What RESUME, NEXT and ASYNC do to a clock's registration.
ghost use Rattle.std.specs.Prelude.{◌≡◌};
ghost use Rattle.rules.specs.Clocks.{quiesced, quiesce, revived};
ghost use Rattle.rules.specs.Faults.{bit};

use rules::state::{Hold, Registration};

// RESUME and arrival; again changes nothing.
pub fn quiesced(registration: Registration) -> Registration
    ensures { result ≡ quiesced registration }
{
    match registration {
        Registration::Live => Registration::Quiesced,
        other => other,
    }
}

pub fn quiesce(hold: Hold) -> Hold
    ensures { result ≡ quiesce hold }
{
    Hold {
        registration: quiesced(hold.registration),
        ..hold
    }
}

// Passing makes live.
pub fn revived(registration: Registration) -> Registration
    ensures { result ≡ revived registration }
{
    match registration {
        Registration::Quiesced => Registration::Live,
        other => other,
    }
}

// Whether a mask byte lends the clock under a name.
pub fn lends(mask: u8, name: usize) -> bool
    ensures { result ≡ bit mask name }
{
    name < 8 && (mask >> name) % 2 == 1
}
