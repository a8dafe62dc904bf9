ghost use Rattle.std.specs.Prelude.{◌≡◌, ℕ, List, decimal, MatchOption};
ghost use Rattle.loglines.specs.Words.{IsWord, Kind, bytes};
ghost use Rattle.loglines.specs.Text.{mark_word, letter_word, spaced, Short, OfMark};
ghost use Rattle.loglines.specs.Readers.{Whole, Front, NoFront, Both, two_words};
ghost use Rattle.loglines.specs.Spelled.{numeral_decimal, short_fits, mark_word_is, mark_same, mark_fits, letter_word_is, letter_same};
ghost use Rattle.std.proofs.Common.{inl, inr};
ghost use Rattle.std.proofs.lemmas.Fmt.{decimal_injective};

use crate::command::{Mark, YardstickLetter};
use crate::scan::number;
use crate::token::Token;
use crate::words::next_word;

// A value that one word of a line writes.
pub(crate) trait WordValue: Copy {
    // the word of a value, and the values that have one
    ghost spelled: { Self → List ℕ };

    ghost valid: { Self → Type 0 };

    fn from_token(token: Token) -> Option<Self>
        requires { Kind token }
        ensures { Whole spelled valid (bytes token.entry) result };

    ghost word: { (x : Self) → valid x → IsWord (spelled x) };

    ghost same: { (x y : Self) → valid x → valid y → spelled x ≡ spelled y → x ≡ y };
}

// A number word is a number of 1 to 19 digits.
impl WordValue for u64 {
    ghost spelled = { decimal };

    ghost valid = { Short };

    ghost word = { λ n h. inr (inl (numeral_decimal n h)) };

    ghost same = { λ m n hm hn e. decimal_injective m n (short_fits m hm) (short_fits n hn) e };

    fn from_token(token: Token) -> Option<u64> {
        match token {
            Token::Digits(s) => Some(number(s)),
            _ => None,
        }
    }
}

// A pair's last word is a number or the dash.
impl WordValue for Mark {
    ghost spelled = { mark_word };

    ghost valid = { OfMark Short };

    ghost word = { λ m h. mark_word_is m h };

    ghost same = { λ x y hx hy e. mark_same x y (mark_fits x hx) (mark_fits y hy) e };

    fn from_token(token: Token) -> Option<Mark> {
        match token {
            Token::Digits(s) => Some(Mark::Number(number(s))),
            Token::Dash(_) => Some(Mark::Gap),
            Token::Letter(_) => None,
        }
    }
}

// A yardstick goes by one letter.
impl WordValue for YardstickLetter {
    ghost spelled = { letter_word };

    ghost valid = { λ _. Unit {0} };

    ghost word = { λ y _. letter_word_is y };

    ghost same = { λ x y _ _ e. letter_same x y e };

    fn from_token(token: Token) -> Option<YardstickLetter> {
        match token {
            Token::Letter(b"S") => Some(YardstickLetter::Spread),
            Token::Letter(b"G") => Some(YardstickLetter::Gradient),
            Token::Letter(b"T") => Some(YardstickLetter::Target),
            _ => None,
        }
    }
}

// The value that the next word writes, and what follows that word. Inlined: a call for each word costs a line of numbers an
// eighth more instructions; likewise below.
#[inline]
pub(crate) fn next_value<V: WordValue>(rest: &[u8]) -> Option<(V, &[u8])>
    ensures { MatchOption result (NoFront V.WordValue.spelled V.WordValue.valid rest.now) (λ p. Front V.WordValue.spelled V.WordValue.valid rest.now p.0 p.1.now) }
{
    let (token, tail) = next_word(rest)?;
    Some((V::from_token(token)?, tail))
}

// The value that the next word writes, where nothing follows that word.
pub(crate) fn last_value<V: WordValue>(rest: &[u8]) -> Option<V>
    ensures { Whole (spaced V.WordValue.spelled) V.WordValue.valid rest.now result }
{
    let (x, tail) = next_value(rest)?;
    tail.is_empty().then_some(x)
}

// The values that the next two words write, where nothing follows those words.
#[inline]
pub(crate) fn last_two<V: WordValue, W: WordValue>(rest: &[u8]) -> Option<(V, W)>
    ensures { Whole (two_words V.WordValue.spelled W.WordValue.spelled) (Both V.WordValue.valid W.WordValue.valid) rest.now result }
{
    let (x, tail) = next_value(rest)?;
    Some((x, last_value(tail)?))
}
