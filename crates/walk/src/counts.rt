// The activities ended, and the total of a state.
ghost use Rattle.std.specs.Prelude.{◌≡◌, min};
ghost use Rattle.rules.specs.State.{ended as ended_in};
ghost use Rattle.rules.specs.Search.{count_below};
ghost use Rattle.lines.specs.Put.{Put};
ghost use Rattle.lines.specs.Text.{total_of};

use lines::Text;
use parts::checks::is_ended;
use rules::state::State;

// How many activities have ended, faulted ones too.
pub fn ended(s: &State) -> u64
    ensures { result ≡ count_below (min s.now.activities 64) (ended_in s.now) }
{
    let mut count: u64 = 0;
    for i in 0..(s.activities as usize).min(64) {
        if is_ended(s.acts[i].status) {
            count += 1;
        }
    }
    count
}

// Puts the total of a state.
pub fn put_ending(text: &mut Text<'_>, work: u64, s: &State)
    ensures { Put text.old (total_of work s.now.steps (count_below (min s.now.activities 64) (ended_in s.now)) s.now.activities) text.new }
{
    text.total(work, s.steps as u64, ended(s), s.activities as u64);
}
