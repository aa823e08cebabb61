// Lists of commands over lent bytes: an entry is five bytes, as `builder` has it.
ghost use Rattle.std.specs.Prelude.{◌≡◌, length};
ghost use Rattle.builder.specs.Build.{built_number, built_bytes, listed_number, listed_entries};
ghost use Rattle.host.specs.Lists.{size_after, found_after};

use super::number::number_of;
use builder::{build, list};

// The table of a list of commands into the buffer, and its length. A refused call leaves both as they were.
#[unsafe(no_mangle)]
pub extern "C" fn stepmachine_build(entries: &[[u8; 5]], table: &mut [u8], size: &mut usize) -> u8
    ensures value { result ≡ built_number entries.now (length table.old) }
    ensures table_after { table.new ≡ built_bytes entries.now table.old }
    ensures size_after { size.new ≡ size_after entries.now (length table.old) size.old }
{
    let built = build(entries, table);
    *size = built.unwrap_or(*size);
    number_of(built)
}

// The commands of a table into the entries, and how many were found. A refused call leaves both as they were.
#[unsafe(no_mangle)]
pub extern "C" fn stepmachine_commands(
    table: &[u8],
    entries: &mut [[u8; 5]],
    found: &mut usize,
) -> u8
    ensures value { result ≡ listed_number table.now (length entries.old) }
    ensures entries_after { entries.new ≡ listed_entries table.now entries.old }
    ensures found_after { found.new ≡ found_after table.now (length entries.old) found.old }
{
    let listed = list(table, entries);
    *found = listed.unwrap_or(*found);
    number_of(listed)
}
