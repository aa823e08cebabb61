// The entry of a command.
ghost use Rattle.std.specs.Prelude.{◌≡◌};
ghost use Rattle.builder.specs.Build.{entry_of};

use program::command::{Command, opcode, operands};

// The command byte, its operand bytes, and 0 for those that it lacks.
#[tactic(auto, unfolding(crate::specs::Build::entry_of))]
pub fn entry_of(command: Command) -> [u8; 5]
    ensures { result ≡ entry_of command }
{
    let [x, y, z, w] = operands(command);
    [opcode(command) as u8, x, y, z, w]
}
