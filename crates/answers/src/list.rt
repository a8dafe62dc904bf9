ghost use Rattle.std.specs.Prelude.{◌+◌, ◌*◌, ◌≤◌, length};
ghost use Rattle.answers.specs.declared.line.TheConstants.{LINE_ROOM};
ghost use Rattle.answers.specs.Places.{Appended};
ghost use Rattle.answers.specs.Lines.{each, total_numbers, total_text};

use crate::number::Number;
use crate::text::Line;
use crate::total::Total;

impl Line<'_> {
    // Writes each number after a space.
    pub(crate) fn put_each<N: Number>(&mut self, numbers: &[N])
        requires { self.old.len + (N.Number.most + 1) * length numbers.now ≤ LINE_ROOM }
        ensures placed { Appended (each 32 N.Number.text numbers.now) self.old self.new }
        ensures room { self.new.len ≤ self.old.len + (N.Number.most + 1) * length numbers.now }
    {
        for x in numbers {
            self.put_byte(b' ');
            x.put(self);
        }
    }

    // Writes the numbers of a total with a comma between them.
    pub(crate) fn put_total(&mut self, total: Total)
        requires { self.old.len + 41 ≤ LINE_ROOM }
        ensures placed { Appended (total_text (total_numbers total)) self.old self.new }
        ensures room { self.new.len ≤ self.old.len + 41 }
    {
        match total {
            Total::One(z) => z.put(self),
            Total::Two(y, z) => {
                y.put(self);
                self.put_byte(b',');
                z.put(self);
            }
        }
    }
}
