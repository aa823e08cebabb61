// A text that ends within its buffer.
ghost use Rattle.std.specs.Prelude.{◌≡◌, ◌≤◌, length};

use super::put::Text;
use super::steps::Steps;

// Its text ends within its buffer, whatever is put to it.
#[derive(Drop)]
pub struct FitText<'a> {
    text: Text<'a>,
    ghost fits: { text.end ≤ length text.out.now },
}

impl<'a> FitText<'a> {
    ghost use Rattle.lines.specs.Put.{Put};
    ghost use Rattle.lines.specs.Paged.{Paged};
    ghost use Rattle.lines.specs.Text.{header_of, refused_of};

    // A text with no byte.
    pub fn new(out: &'a mut [u8]) -> Self
        ensures same_buffer { result.text.out.ghost_name ≡ out.entry.ghost_name }
        ensures bytes_stay { result.text.out.now ≡ out.old }
        ensures empty { result.text.end ≡ 0 }
    {
        FitText {
            text: Text::new(out),
        }
    }

    // A text that is known to fit.
    pub fn of(text: Text<'a>) -> Self
        requires { text.end ≤ length text.out.now }
        ensures { result.text ≡ text.entry }
    {
        FitText { text }
    }

    // Its text.
    pub fn text(&self) -> &Text<'a>
        ensures { result.now ≡ self.now.text }
    {
        &self.text
    }

    // The header.
    pub fn header(&mut self)
        ensures { Put self.old.text header_of self.new.text }
    {
        self.text.header();
    }

    // The one line of a table that is turned down.
    pub fn refused(&mut self, number: u64)
        ensures { Put self.old.text (refused_of number) self.new.text }
    {
        self.text.refused(number);
    }

    // The lines from one on, as long as there is room for any; answers how many lines there are by then.
    pub fn page(&mut self, steps: Steps<'_>, line: usize) -> usize
        ensures { Paged self.old.text steps.entry.order.now steps.entry.answers.now steps.entry.awaited.now line self.new.text result }
    {
        self.text.page(steps, line)
    }
}
