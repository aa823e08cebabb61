// Text handed on to a writer, a page at a time.
ghost use Rattle.std.specs.Prelude.{◌≡◌, ◌≤◌, ◌<◌, length, take, IfOk, OnOk};
ghost use Rattle.std.specs.Io.KnownBytes.{Appends, Keeps};
ghost use Rattle.lines.specs.Walk.{lines_from};

use lines::{FitText, Steps, Text};
use std::io;
use std::io::Write;

// Writes the text's bytes, where it ends within its buffer.
pub fn send<W: Write>(to: &mut W, text: &Text<'_>) -> io::Result<()>
    ensures written { text.now.end ≤ length text.now.out.now → OnOk result (Appends (W.contents to.old) (W.contents to.new) (take text.now.end text.now.out.now)) }
    ensures past { length text.now.out.now < text.now.end → Keeps (W.contents to.old) (W.contents to.new) }
{
    if text.end <= text.out.len() {
        to.write_all(&text.out[..text.end])?;
    }
    Ok(())
}

// Writes the lines, as many at a time as the buffer holds, until none is left, and answers how many there were. A page says which line comes next, so no range has them.
pub fn print_lines<W: Write>(to: &mut W, out: &mut [u8], steps: Steps<'_>) -> io::Result<usize>
    requires order_in_bounds { length steps.order.now ≤ length steps.answers.now }
    requires order_in_bounds_2 { length steps.order.now ≤ length steps.awaited.now }
    requires in_bounds { 128 ≤ length out.old }
    ensures all { IfOk result (λ n. n ≡ length steps.entry.order.now) }
    ensures printed { OnOk result (Appends (W.contents to.old) (W.contents to.new) (lines_from 0 0 steps.entry.order.now steps.entry.answers.now steps.entry.awaited.now)) }
{
    let mut line: usize = 0;
    while line < steps.order.len() {
        let mut page = FitText::new(out);
        let next = page.page(steps, line);
        send(to, page.text())?;
        line = next;
    }
    Ok(line)
}
