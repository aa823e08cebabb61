// A text under way, put at the start of a lent buffer: a byte, bytes and a number.
ghost use Rattle.std.specs.Prelude.{◌≡◌, ◌-◌, length};

// The text's bytes stand before `end`. Where that is past the buffer, nothing more is put.
#[derive(Drop)]
pub struct Text<'a> {
    pub out: &'a mut [u8],
    pub end: usize,
}

impl<'a> Text<'a> {
    ghost use Rattle.std.specs.Prelude.{[], ◌∷◌};
    ghost use Rattle.lines.specs.Put.{Put};
    ghost use Rattle.lines.specs.Text.{decimal_of};

    // A text with no byte.
    pub fn new(out: &'a mut [u8]) -> Self
        ensures same_buffer { result.out.ghost_name ≡ out.entry.ghost_name }
        ensures bytes_stay { result.out.now ≡ out.old }
        ensures empty { result.end ≡ 0 }
    {
        Text { out, end: 0 }
    }

    // How many bytes more there is room for.
    pub fn room(&self) -> usize
        ensures { result ≡ length self.now.out.now - self.now.end }
    {
        self.out.len().saturating_sub(self.end)
    }

    // A byte, where there is room.
    pub fn byte(&mut self, x: u8)
        ensures { Put self.old (x ∷ []) self.new }
    {
        if self.end < self.out.len() {
            self.out[self.end] = x;
            self.end += 1;
        }
    }

    // Bytes, one after the other.
    pub fn bytes(&mut self, text: &[u8])
        ensures { Put self.old text.now self.new }
    {
        for x in text {
            self.byte(*x);
        }
    }

    // A number's decimal digits.
    pub fn number(&mut self, n: u64)
        ensures { Put self.old (decimal_of n) self.new }
    {
        if 10 <= n {
            self.number(n / 10);
        }
        self.byte(b'0' + (n % 10) as u8);
    }
}
