// Files read whole.
ghost use Rattle.std.specs.Prelude.{◌<◌, length};
ghost use Rattle.walk.specs.Counts.{IsPrefixLen, Consumed};

use std::fs;
use std::io::Read;
use std::rt::Files;

// Reads until the buffer is full or the file ends, and answers how many bytes came; an error counts as no byte. A read gives as many bytes as it likes, so no range
// counts the turns.
fn read_whole<R: Read>(file: &mut R, buf: &mut [u8]) -> usize
    ensures in_bounds { IsPrefixLen result buf.new }
    ensures whole { 0 < result → Consumed (R.remaining file.old) (R.remaining file.new) result buf.new (result < length buf.new) }
{
    let mut done: usize = 0;
    while done < buf.len() {
        match file.read(&mut buf[done..]) {
            Ok(0) => return done,
            Ok(came) => done += came,
            Err(_) => return 0,
        }
    }
    done
}

// The bytes of a file of the folder, as many as the buffer holds; a file that cannot be read counts as empty.
pub fn read_file<F: Files>(rt: &F, name: &str, buf: &mut [u8]) -> usize
    ensures { IsPrefixLen result buf.new }
{
    match fs::open(rt, name) {
        Ok(mut file) => read_whole(&mut file, buf),
        Err(_) => 0,
    }
}
