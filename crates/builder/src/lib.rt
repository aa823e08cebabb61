// Builds tables from lists of commands, and lists the commands of a table. It relies only on what `program` promises.
// A list is a slice of entries of five bytes: the command byte, its operand bytes in the order of the table, and bytes that the command lacks, which
// are not looked at: in C a list is a pointer to such entries. Each call answers the documents' number. Memory is fixed, so the bytes are made in a room of a
// table's greatest size.
#![tactic(auto)]

ghost use Rattle.std.specs.Prelude.{◌≡◌, map, length, take, IfOk};
ghost use Rattle.program.specs.Refusal.{answered};
ghost use Rattle.program.specs.Reading.{commands_of};
ghost use Rattle.builder.specs.Build.{command_in, list_bytes, built_number, built_length, built_bytes, listed_number, listed_count, listed_entries};

use program::refusal::Refusal;
use program::table::read_table;

mod bytes; // bytes.rt: the bytes of entries
pub mod entry; // entry.rt: the entry of a command
mod commands; // commands.rt: the commands of a table as entries

// The table of a list of commands into a lent buffer, and its length. A call that is turned away leaves the buffer, and bytes past the table stay as they were.
// Reading the table yields the list.
pub fn build(entries: &[[u8; 5]], table: &mut [u8]) -> Result<usize, Refusal>
    ensures value { result ≡ answered (built_number entries.now (length table.old)) (built_length entries.now (length table.old)) }
    ensures table_after { table.new ≡ built_bytes entries.now table.old }
    ensures reads_back { IfOk result (λ size. commands_of (take size table.new) ≡ map command_in entries.now) }
{
    let mut room = [0u8; 2048];
    let Some(length) = bytes::fill(entries, &mut room) else {
        return Err(Refusal::Size);
    };
    let made = &room[..length];
    read_table(made)?;
    if table.len() < length {
        return Err(Refusal::Room);
    }
    table[..length].copy_from_slice(made);
    Ok(length)
}

// The commands of a table into lent entries, 0 in the bytes that a command lacks, and how many they are. A call that is turned away leaves the entries, and those
// past the last command stay as they were. Building from them yields the table.
pub fn list(table: &[u8], entries: &mut [[u8; 5]]) -> Result<usize, Refusal>
    ensures value { result ≡ answered (listed_number table.now (length entries.old)) (listed_count table.now (length entries.old)) }
    ensures entries_after { entries.new ≡ listed_entries table.now entries.old }
    ensures builds_back { IfOk result (λ count. list_bytes (take count entries.new) ≡ table.now) }
{
    read_table(table)?;
    let count = commands::count(table);
    if entries.len() < count {
        return Err(Refusal::Room);
    }
    commands::put(table, &mut entries[..count]);
    Ok(count)
}
