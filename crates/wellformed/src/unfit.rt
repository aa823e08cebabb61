// Why a state is not taken for a table.
ghost use Rattle.std.specs.Prelude.{◌≡◌};
ghost use Rattle.wellformed.specs.Judged.{refusal_of};

use program::refusal::Refusal;
use program::table::Table;

#[derive(Clone, Copy, Debug, PartialEq, Eq)]
pub enum Unfit {
    // The table is turned down: numbers 1 to 12.
    Table(Refusal),
    // The state is unfit for the table that was read: number 13.
    State(Table),
}

impl Unfit {
    pub fn refusal(self) -> Refusal
        ensures { result ≡ refusal_of self }
    {
        match self {
            Unfit::Table(refusal) => refusal,
            Unfit::State(_) => Refusal::State,
        }
    }
}

impl From<Unfit> for Refusal {
    ghost from_gives = { λ unfit refusal. refusal ≡ refusal_of unfit };

    fn from(unfit: Unfit) -> Refusal {
        unfit.refusal()
    }
}
