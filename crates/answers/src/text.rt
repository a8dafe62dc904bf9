// A line that is being written.
ghost use Rattle.std.specs.Prelude.{◌≤◌, length};
ghost use Rattle.answers.specs.declared.line.TheConstants.{LINE_ROOM};

use crate::number::place_decimal;

// A line that is being written at the start of a lent buffer, and how many bytes it has so far. The memory is the caller's.
#[derive(Drop)]
pub(crate) struct Line<'a> {
    buffer: &'a mut [u8],
    pub(crate) len: usize,
    ghost room: { LINE_ROOM ≤ length buffer.now },
    ghost within: { len ≤ LINE_ROOM },
}

impl<'a> Line<'a> {
    ghost use Rattle.std.specs.Prelude.{◌+◌, ◌<◌, ◌≡◌, [], ◌∷◌, decimal};
    ghost use Rattle.answers.specs.Places.{Begun, Appended};

    // Begins a line with no byte yet.
    // Callers test the room: of a lent buffer in an `Option`, that `None` leaves it unchanged has no generated proof.
    pub(crate) fn begin(buffer: &'a mut [u8]) -> Line<'a>
        requires { LINE_ROOM ≤ length buffer.old }
        ensures { Begun buffer.entry result }
    {
        Line { buffer, len: 0 }
    }

    // Writes a byte after what the line has.
    // The length is read once, since it would be loaded anew after the byte is stored.
    pub(crate) fn put_byte(&mut self, byte: u8)
        requires { self.old.len < LINE_ROOM }
        ensures { Appended (byte ∷ []) self.old self.new }
    {
        let at = self.len;
        self.buffer[at] = byte;
        self.len = at + 1;
    }

    // Writes a text after what the line has.
    pub(crate) fn put_text(&mut self, text: &[u8])
        requires { self.old.len + length text.now ≤ LINE_ROOM }
        ensures { Appended text.now self.old self.new }
    {
        let end = self.len + text.len();
        self.buffer[self.len..end].copy_from_slice(text);
        self.len = end;
    }

    // Writes the decimal digits of n after what the line has.
    pub(crate) fn put_decimal(&mut self, n: u64)
        requires { self.old.len + length (decimal n) ≤ LINE_ROOM }
        ensures { Appended (decimal n) self.old self.new }
    {
        self.len = place_decimal(self.buffer, self.len, n);
    }
}
