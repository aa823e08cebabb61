// Accumulators: what a new one holds, and how one reduces.
ghost use Rattle.std.specs.Prelude.{◌≡◌};
ghost use Rattle.rules.specs.Effects.{reduce, new_value, new_accumulator};

use rules::state::{Accumulator, Operator};

pub fn reduce(operator: Operator, x: u32, y: u32) -> u32
    ensures { result ≡ reduce operator x y }
{
    match operator {
        Operator::Sum => x.wrapping_add(y),
        Operator::Minimum => x.min(y),
        Operator::Maximum => x.max(y),
    }
}

pub fn new_value(operator: Operator) -> u32
    ensures { result ≡ new_value operator }
{
    match operator {
        Operator::Sum | Operator::Maximum => 0,
        Operator::Minimum => u32::MAX,
    }
}

pub fn new_accumulator(owner: u8, operator: Operator) -> Accumulator
    ensures { result ≡ new_accumulator owner operator }
{
    Accumulator {
        value: new_value(operator),
        owner,
        operator,
    }
}
