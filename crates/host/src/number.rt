// What a call answers, as the number that C is told.
ghost use Rattle.std.specs.Prelude.{◌≡◌};
ghost use Rattle.program.specs.Refusal.{told};

use program::refusal::Refusal;

// 0, or the number for which the call is turned down.
pub fn number_of<T: Drop>(answer: Result<T, Refusal>) -> u8
    ensures { result ≡ told answer }
{
    match answer {
        Ok(_) => 0,
        Err(refusal) => refusal.number(),
    }
}
