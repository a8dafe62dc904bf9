ghost use Rattle.std.specs.Prelude.{◌+◌, ◌≤◌, ◌&&◌, length};
ghost use Rattle.answers.specs.Places.{Appended};
ghost use Rattle.answers.specs.Lines.{total_numbers, ranking, scaling, ranked_text, scaled_text, refused_text, roomy, listable, Written, OneAnswer};

use crate::number::Number;
use crate::text::Line;
use crate::total::Total;

// The bytes in which every line fits.
pub const LINE_ROOM: usize = 512;

// The most labels, and the most displacements, of a line.
pub const MOST_UNITS: usize = 11;

impl Line<'_> {
    // Writes an order, its total and its count after what the line has.
    fn put_ranking(&mut self, order: &[u8], total: Total, count: u64)
        requires few { length order.now ≤ MOST_UNITS }
        requires space { self.old.len + 121 ≤ LINE_ROOM }
        ensures placed { Appended (ranking order.now (total_numbers total) count) self.old self.new }
        ensures room { self.new.len ≤ self.old.len + 121 }
    {
        self.put_text(b"order");
        self.put_each(order);
        self.put_text(b" total ");
        self.put_total(total);
        self.put_text(b" of ");
        count.put(self);
    }

    // Writes displacements and a loss after what the line has.
    fn put_scaling(&mut self, displaced: &[i64], loss: i64)
        requires few { length displaced.now ≤ MOST_UNITS }
        requires space { self.old.len + 260 ≤ LINE_ROOM }
        ensures placed { Appended (scaling displaced.now loss) self.old self.new }
        ensures room { self.new.len ≤ self.old.len + 260 }
    {
        self.put_text(b" at");
        self.put_each(displaced);
        self.put_text(b" loss ");
        loss.put(self);
    }
}

// Writes the line of a ranking at the start of the buffer, and answers how many bytes it took.
// None, and the buffer unchanged, where the buffer has under 512 bytes or the order over 11 labels.
#[tactic(auto, using(crate::proofs::Telling::one_answer))]
pub fn write_ranked(buffer: &mut [u8], order: &[u8], total: Total, count: u64) -> Option<usize>
    ensures text { Written (roomy buffer.old && listable order.now) (ranked_text order.now (total_numbers total) count) buffer.old buffer.new result }
    ensures one { OneAnswer }
{
    if buffer.len() < LINE_ROOM || order.len() > MOST_UNITS {
        return None;
    }
    let mut ranked = Line::begin(buffer);
    ranked.put_ranking(order, total, count);
    ranked.put_byte(b'\n');
    Some(ranked.len)
}

// Writes the line of a ranking that is scaled at the start of the buffer, and answers how many bytes it took.
// None, and the buffer unchanged, where the buffer has under 512 bytes, or there are over 11 labels or over 11 displacements.
pub fn write_scaled(
    buffer: &mut [u8],
    order: &[u8],
    total: Total,
    count: u64,
    displaced: &[i64],
    loss: i64,
) -> Option<usize>
    ensures { Written (roomy buffer.old && (listable order.now && listable displaced.now)) (scaled_text order.now (total_numbers total) count displaced.now loss) buffer.old buffer.new result }
{
    if buffer.len() < LINE_ROOM || order.len() > MOST_UNITS || displaced.len() > MOST_UNITS {
        return None;
    }
    let mut scaled = Line::begin(buffer);
    scaled.put_ranking(order, total, count);
    scaled.put_scaling(displaced, loss);
    scaled.put_byte(b'\n');
    Some(scaled.len)
}

// Writes the line of a refusal at the start of the buffer, and answers how many bytes it took.
// None, and the buffer unchanged, where the buffer has under 512 bytes.
// The refusal is any number, since a type with fewer values would ask more of callers.
pub fn write_refused(buffer: &mut [u8], line: u16, refusal: u8) -> Option<usize>
    ensures { Written (roomy buffer.old) (refused_text line refusal) buffer.old buffer.new result }
{
    if buffer.len() < LINE_ROOM {
        return None;
    }
    let mut refused = Line::begin(buffer);
    refused.put_text(b"line ");
    u64::from(line).put(&mut refused);
    refused.put_text(b" refused ");
    refusal.put(&mut refused);
    refused.put_byte(b'\n');
    Some(refused.len)
}
