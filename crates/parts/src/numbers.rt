// Enums by the papers' numbers, and the number of an answer.
ghost use Rattle.std.specs.Prelude.{◌≡◌};
ghost use Rattle.rules.specs.State.{fault_of, operator_of, status_answer, answer_number};

use rules::answer::Answer;
use rules::state::{Fault, Operator, Status};

// The fault of a number from 1 on, and F1 of any other: the definition is total, so that no caller meets an error such as TryFrom's.
pub fn fault_of(number: u8) -> Fault
    ensures { result ≡ fault_of number }
{
    match number {
        2 => Fault::F2,
        3 => Fault::F3,
        4 => Fault::F4,
        5 => Fault::F5,
        6 => Fault::F6,
        7 => Fault::F7,
        8 => Fault::F8,
        _ => Fault::F1,
    }
}

// The operator of a number up to 2, and the sum of any other: total too, and by its own definition, as the registrations of `encoding` are by theirs.
pub fn operator_of(number: u8) -> Operator
    ensures { result ≡ operator_of number }
{
    match number {
        1 => Operator::Minimum,
        2 => Operator::Maximum,
        _ => Operator::Sum,
    }
}

// 0 for a step, 100 plus f for fault f: the paper's numbers, by the definition.
pub fn status_answer(status: Status) -> u8
    ensures { result ≡ status_answer status }
{
    match status {
        Status::Running | Status::AtBarrier | Status::Ended => 0,
        Status::Faulted(fault) => 100 + fault as u8,
    }
}

// The number of an answer, for a host that steps by value: the paper's, by the definition, which no derive gives.
pub fn answer_number(answer: Answer) -> u8
    ensures { result ≡ answer_number answer }
{
    match answer {
        Ok(status) => status_answer(status),
        Err(refusal) => refusal.number(),
    }
}
