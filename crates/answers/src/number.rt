ghost use Rattle.std.specs.Prelude.{ℕ, ◌+◌, ◌≤◌, List, length, decimal};
ghost use Rattle.std.specs.Fmt.{signed_decimal};
ghost use Rattle.answers.specs.declared.line.TheConstants.{LINE_ROOM};
ghost use Rattle.answers.specs.Places.{Placed, Appended};

use crate::text::Line;

// A number that a line writes, in at most so many bytes.
pub(crate) trait Number: Copy {
    ghost text: { Self → List ℕ };

    ghost most: { ℕ };

    // Writes the number after what the line has.
    fn put(self, line: &mut Line)
        requires { line.old.len + most ≤ LINE_ROOM }
        ensures placed { Appended (text self) line.old line.new }
        ensures room { line.new.len ≤ line.old.len + most };
}

impl Number for u8 {
    ghost text = { decimal };

    ghost most = { 3 };

    #[tactic(auto, using(crate::proofs::Lengths::byte_short))]
    fn put(self, line: &mut Line) {
        line.put_decimal(u64::from(self));
    }
}

impl Number for u64 {
    ghost text = { decimal };

    ghost most = { 20 };

    #[tactic(auto, using(crate::proofs::Lengths::whole_short))]
    fn put(self, line: &mut Line) {
        line.put_decimal(self);
    }
}

impl Number for i64 {
    ghost text = { signed_decimal };

    ghost most = { 20 };

    fn put(self, line: &mut Line) {
        if self < 0 {
            line.put_byte(b'-');
        }
        line.put_decimal(self.unsigned_abs());
    }
}

// Writes the decimal digits of n at a place of the buffer, and answers the place after them.
// The place is passed, since a line's length would be stored anew with each digit.
// Not by `write!`, whose clauses say what was written where it answers `Ok`, but never that it does.
pub(crate) fn place_decimal(buffer: &mut [u8], at: usize, n: u64) -> usize
    requires { at + length (decimal n) ≤ length buffer.old }
    ensures { Placed (decimal n) at buffer.old buffer.new result }
{
    if n < 10 {
        buffer[at] = b'0' + n as u8;
        at + 1
    } else {
        let end = place_decimal(buffer, at, n / 10);
        buffer[end] = b'0' + (n % 10) as u8;
        end + 1
    }
}
