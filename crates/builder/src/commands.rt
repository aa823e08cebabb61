// The commands of a table as entries. The table was accepted, so what stands in it is not tried again.
ghost use Rattle.std.specs.Prelude.{◌≡◌, map, length};
ghost use Rattle.program.specs.Reading.{commands_of};
ghost use Rattle.program.specs.Scan.{scan};
ghost use Rattle.builder.specs.Build.{entry_of};

use super::entry::entry_of;
use program::command::width_at;
use program::reading::known;

// How many commands a table has. The walk goes from command to command, by widths that it reads, so no range has its places.
pub fn count(table: &[u8]) -> usize
    requires { scan table.now ≡ 0 }
    ensures { result ≡ length (commands_of table.now) }
{
    let mut at: usize = 1;
    let mut n: usize = 0;
    while at < table.len() {
        at += width_at(table[at]);
        n += 1;
    }
    n
}

// The entry of each command.
pub fn put(table: &[u8], entries: &mut [[u8; 5]])
    requires { (scan table.now ≡ 0) × (length entries.old ≡ length (commands_of table.now)) }
    ensures { entries.new ≡ map entry_of (commands_of table.now) }
{
    let mut at: usize = 1;
    for entry in entries.iter_mut() {
        *entry = entry_of(known(table, at));
        at += width_at(table[at]);
    }
}
