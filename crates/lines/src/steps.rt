// What the lines tell, step by step.
ghost use Rattle.std.specs.Prelude.{◌≡◌, length, min, take};
ghost use Rattle.lines.specs.Walk.{steps_of, steps_in};

// The order's activities, the answer to each, and how many each waits for.
#[derive(Clone, Copy)]
pub struct Steps<'a> {
    pub order: &'a [u8],
    pub answers: &'a [u8],
    pub awaited: &'a [u8],
}

// A step is taken where the answer is 0 or that of a fault: what the walk prints are the paper's numbers.
#[tactic(auto, unfolding(crate::specs::Walk::steps_of))]
pub fn steps_of(answer: u8) -> u64
    ensures { result ≡ steps_of answer }
{
    match answer {
        0 | 100.. => 1,
        _ => 0,
    }
}

impl Steps<'_> {
    // How many steps all three tell.
    pub(super) fn len(self) -> usize
        ensures { result ≡ min (length self.entry.order.now) (min (length self.entry.answers.now) (length self.entry.awaited.now)) }
    {
        self.order
            .len()
            .min(self.answers.len().min(self.awaited.len()))
    }

    // The steps taken by the first answers, so many of them.
    pub(super) fn taken_by(self, line: usize) -> u64
        ensures { result ≡ steps_in (take line self.entry.answers.now) }
    {
        let mut taken: u64 = 0;
        for answer in &self.answers[..line.min(self.answers.len())] {
            taken += steps_of(*answer);
        }
        taken
    }
}
