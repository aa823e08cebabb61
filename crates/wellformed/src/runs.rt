// What runs a frame: a FINISH, a REPEAT, a CHOOSE, or, at the bottom, no command of its activity.
ghost use Rattle.std.specs.Prelude.{◌≡◌};
ghost use Rattle.rules.specs.WellFormed.{run_by, is_bottom};

use program::command::Command;
use rules::state::Frame;

// A stacked body is the one run by the FINISH, REPEAT or CHOOSE of the body below it. Above a FINISH or a CHOOSE it has no runs, and its first number is at most
// so many, 0 of a CHOOSE; a repeat has not 0 runs left nor more than its n.
#[tactic(auto, unfolding(rules::specs::WellFormed::run_by))]
pub fn run_by(made: u8, command: Command, f: Frame) -> bool
    ensures { result ≡ run_by made command f }
{
    match command {
        Command::Finish(b) => f.body == b && f.runs == 0 && f.first <= made,
        Command::Repeat(n, b) => f.body == b && 1 <= f.runs && f.runs <= n && f.first == 0,
        Command::Choose(b) => f.body == b && f.runs == 0 && f.first == 0,
        _ => false,
    }
}

// The frame at the bottom has no runs and no first activity.
#[tactic(auto, unfolding(rules::specs::WellFormed::is_bottom))]
pub fn is_bottom(f: Frame) -> bool
    ensures { result ≡ is_bottom f }
{
    f.runs == 0 && f.first == 0
}
