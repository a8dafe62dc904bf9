ghost use Rattle.std.specs.Prelude.{◌≡◌, ◌≤◌, length, MatchOption};
ghost use Rattle.loglines.specs.Spans.{parts};
ghost use Rattle.loglines.specs.Words.{IsWord, Tells, Cut, NoWord, part_at};

use crate::scan::{span, token};
use crate::token::{Token, Word};

// The word with which `rest` begins after one space, and what follows it.
pub(crate) fn next_word(rest: &[u8]) -> Option<(Token<'_>, &[u8])>
    ensures { MatchOption result (NoWord rest.now) (λ p. Cut rest.now p.0 p.1.now) }
{
    let after = rest.strip_prefix(b" ")?;
    let (part, tail) = after.split_at(span(after, b' '));
    Some((token(part)?, tail))
}

// The part of a line at a place, where 0 is what stands before its first space.
fn part(line: &[u8], place: usize) -> Option<&[u8]>
    ensures { MatchOption result (length (parts 32 line.now) ≤ place) (λ s. s.now ≡ part_at line.now place) }
{
    line.split(|b| *b == b' ').nth(place)
}

// The word of a line at a place: 0 is the line's letter, and 1 the first word after it.
pub fn word(line: &[u8], place: usize) -> Option<Word<'_>>
    ensures { MatchOption result (IsWord (part_at line.now place) → ⊥) (λ w. Tells (part_at line.now place) w.token × (w.place ≡ place)) }
{
    let token = token(part(line, place)?)?;
    Some(Word { token, place })
}
