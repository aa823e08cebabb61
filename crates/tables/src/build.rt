// Tables made of commands.
ghost use Rattle.std.specs.Prelude.{◌≤◌};

// A table under construction: its bytes so far, in fixed memory. There is room for one more than a table may have.
#[derive(Clone, Copy)]
pub struct Built {
    bytes: [u8; 2049],
    len: usize,
    ghost fits: { len ≤ 2049 },
}

impl Built {
    // Byte 0 of a table of so many bodies.
    pub fn of(bodies: u8) -> Built {
        let mut built = Built {
            bytes: [0u8; 2049],
            len: 0,
        };
        built.put(&[bodies]);
        built
    }

    // Bytes more, while there is room.
    pub fn put(&mut self, piece: &[u8]) {
        for x in piece {
            if self.len < 2049 {
                self.bytes[self.len] = *x;
                self.len += 1;
            }
        }
    }

    // A body more: so many copies of a command, or of two that come together, and END.
    pub fn body(&mut self, piece: &[u8], count: usize) {
        for _ in 0..count {
            self.put(piece);
        }
        self.put(&[0]);
    }

    pub fn bytes(&self) -> &[u8] {
        &self.bytes[..self.len]
    }
}

// A table of one body of so many copies of a piece.
pub fn one_body(piece: &[u8], count: usize) -> Built {
    let mut built = Built::of(1);
    built.body(piece, count);
    built
}

// Sixteen bodies, each of so many copies of a command that names the next by its last operand; the last has FETCH 0 instead.
pub fn nested(command: &[u8], count: usize) -> Built {
    let mut built = Built::of(16);
    for b in 1..16 {
        for _ in 0..count {
            built.put(command);
            built.put(&[b]);
        }
        built.put(&[0]);
    }
    built.body(&[0x0D, 0], count);
    built
}

// REPEAT 255 of REPEAT 254 of a bare END, with so many FETCH more.
pub fn repeats(more: usize) -> Built {
    let mut built = Built::of(3);
    built.put(&[7, 255, 1]);
    built.body(&[0x0D, 0], more);
    built.body(&[7, 254, 2], 1);
    built.put(&[0]);
    built
}
