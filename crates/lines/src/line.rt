// The walk's lines.
ghost use Rattle.lines.specs.Put.{Put};
ghost use Rattle.lines.specs.Text.{field_of, named_of, header_of, awaited_of, line_of, total_of, refused_of};

use super::put::Text;

impl Text<'_> {
    // A number and the byte behind it.
    fn field(&mut self, n: u64, end: u8)
        ensures { Put self.old (field_of n end) self.new }
    {
        self.number(n);
        self.byte(end);
    }

    // A name and the number behind it.
    fn named(&mut self, name: &[u8], n: u64)
        ensures { Put self.old (named_of name.now n) self.new }
    {
        self.bytes(name);
        self.number(n);
    }

    // The header.
    pub fn header(&mut self)
        ensures { Put self.old header_of self.new }
    {
        self.bytes(b"line act answer taken\n");
    }

    // Behind answer 16, a blank and how many activities are awaited.
    fn awaited(&mut self, answer: u8, awaited: u8)
        ensures { Put self.old (awaited_of answer awaited) self.new }
    {
        if answer == 16 {
            self.byte(b' ');
            self.number(awaited as u64);
        }
    }

    // The line of a byte of the order: its place from 1, the activity, the answer, the steps taken so far, and behind answer 16 how many activities are awaited.
    pub fn line(&mut self, line: u64, act: u8, answer: u8, taken: u64, awaited: u8)
        ensures { Put self.old (line_of line act answer taken awaited) self.new }
    {
        self.field(line, b' ');
        self.field(act as u64, b' ');
        self.field(answer as u64, b' ');
        self.number(taken);
        self.awaited(answer, awaited);
        self.byte(b'\n');
    }

    // The total: the work, the steps taken, the activities ended, and the activities spawned.
    pub fn total(&mut self, work: u64, taken: u64, ended: u64, spawned: u64)
        ensures { Put self.old (total_of work taken ended spawned) self.new }
    {
        self.named(b"work ", work);
        self.named(b" taken ", taken);
        self.named(b" ended ", ended);
        self.named(b" of ", spawned);
        self.byte(b'\n');
    }

    // The one line of a table that is turned down.
    pub fn refused(&mut self, number: u64)
        ensures { Put self.old (refused_of number) self.new }
    {
        self.named(b"table ", number);
        self.byte(b'\n');
    }
}
