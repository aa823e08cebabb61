// An accepted table as it was read: its bytes, where its bodies begin, its work.
ghost use Rattle.std.specs.Prelude.{◌≡◌, ◌≤◌, true};
ghost use Rattle.program.specs.Bodies.{program_of};
ghost use Rattle.program.specs.Count.{work_of};
ghost use Rattle.program.specs.Table.{work_limit};
ghost use Rattle.rules.specs.Tree.{here, is_finish};
ghost use Rattle.rules.specs.WellFormed.{is_placed};
ghost use Rattle.places.specs.Known.{Known};

use program::command::Command;
use program::reading::known;
use rules::state::Frame;

#[derive(Clone, Copy)]
pub struct Accepted<'a> {
    pub bytes: &'a [u8],
    pub starts: &'a [usize],
    pub work: u64,
    // It was accepted, and the starts are those of its bodies.
    pub ghost known: { Known bytes.now starts.now },
    // The work is what its commands count.
    pub ghost counted: { work ≡ work_of (program_of bytes.now) },
    pub ghost small: { work ≤ work_limit },
}

impl<'a> Accepted<'a> {
    // The command at a frame's offset, read in the slice from its body's first command. A turn is a third longer where this is called and not compiled in.
    #[inline(always)]
    pub fn command_at(&self, f: Frame) -> Command
        ensures { is_placed (program_of self.now.bytes.now) f ≡ true → result ≡ (here (program_of self.now.bytes.now) f).command }
    {
        let Some(&first) = self.starts.get(f.body as usize) else {
            return Command::End;
        };
        let Some(rest) = self.bytes.get(first..) else {
            return Command::End;
        };
        known(rest, f.offset as usize)
    }

    // Whether it is FINISH.
    pub fn is_finish(&self, f: Frame) -> bool
        ensures { is_placed (program_of self.now.bytes.now) f ≡ true → result ≡ is_finish (here (program_of self.now.bytes.now) f).command }
    {
        matches!(self.command_at(f), Command::Finish(_))
    }
}
