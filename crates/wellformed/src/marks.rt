// An accepted table with its marks, and what is at a place of it.
ghost use Rattle.std.specs.Prelude.{◌≡◌};
ghost use Rattle.program.specs.Bodies.{program_of};
ghost use Rattle.program.specs.Places.{places_of};
ghost use Rattle.rules.specs.WellFormed.{is_placed};

use places::accepted::Accepted;
use rules::state::Frame;

#[derive(Clone, Copy)]
pub struct Marked<'a, 'm> {
    pub table: Accepted<'a>,
    pub marks: &'m [u8; 2048],
    // The marks are those of its places.
    pub ghost places: { marks.now ≡ places_of table.bytes.now },
}

impl<'a, 'm> Marked<'a, 'm> {
    // A place is a command of its body (the k commands belong to their ATOM): the table's marks say so.
    pub fn is_placed(&self, f: Frame) -> bool
        ensures { result ≡ is_placed (program_of self.now.table.bytes.now) f }
    {
        let table = self.table;
        let body = f.body as usize;
        if table.bytes[0] <= f.body {
            return false;
        }
        let at = table.starts[body] + f.offset as usize;
        if table.bytes.len() <= at {
            return false;
        }
        self.marks[at] as usize == body + 1
    }
}
