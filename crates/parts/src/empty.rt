// Unused entries, the state of zeros and the start state, under the names of their definitions.
ghost use Rattle.std.specs.Prelude.{◌≡◌};
ghost use Rattle.rules.specs.State.{no_frame, no_hold, no_activity, no_accumulator, zero_state};
ghost use Rattle.rules.specs.Steps.{start_state};

use rules::state::{Accumulator, Activity, Frame, Hold, Operator, Registration, State, Status};

pub fn no_frame() -> Frame
    ensures { result ≡ no_frame }
{
    Frame {
        offset: 0,
        body: 0,
        runs: 0,
        first: 0,
    }
}

pub fn no_hold() -> Hold
    ensures { result ≡ no_hold }
{
    Hold {
        phase: 0,
        clock: 0,
        registration: Registration::Free,
    }
}

pub fn no_activity() -> Activity
    ensures { result ≡ no_activity }
{
    Activity {
        register: 0,
        frames: [no_frame(); 16],
        holds: [no_hold(); 8],
        accumulators: [0u8; 8],
        status: Status::Running,
        spawner: 0,
        depth: 0,
    }
}

pub fn no_accumulator() -> Accumulator
    ensures { result ≡ no_accumulator }
{
    Accumulator {
        value: 0,
        owner: 0,
        operator: Operator::Sum,
    }
}

pub fn zero_state() -> State
    ensures { result ≡ zero_state }
{
    State {
        cells: [0u32; 16],
        acts: [no_activity(); 64],
        accs: [no_accumulator(); 16],
        steps: 0,
        activities: 0,
        clocks: 0,
        accumulators: 0,
    }
}

// Activity 0 at the first command of body 0.
pub fn start_state() -> State
    ensures { result ≡ start_state }
{
    let main = Activity {
        depth: 1,
        ..no_activity()
    };
    let mut s = zero_state();
    s.acts[0] = main;
    s.activities = 1;
    s
}
