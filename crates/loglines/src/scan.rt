ghost use Rattle.std.specs.Prelude.{◌≡◌, ◌↔◌, IsTrue, MatchOption};
ghost use Rattle.std.specs.Str.Parse.{digits_value};
ghost use Rattle.loglines.specs.Spans.{Spans};
ghost use Rattle.loglines.specs.Words.{AllDigits, Numeral, IsWord, Tells};

use crate::token::Token;

// How many bytes of `s` stand before the first `stop`; all of them where there is none.
pub(crate) fn span(s: &[u8], stop: u8) -> usize
    ensures { Spans stop s.now result }
{
    s.iter().position(|b| *b == stop).unwrap_or(s.len())
}

// Whether every byte of `s` is a digit.
fn all_digits(s: &[u8]) -> bool
    ensures { IsTrue result ↔ AllDigits s.now }
{
    s.iter().all(u8::is_ascii_digit)
}

// The number that a number word writes.
pub(crate) fn number(word: &[u8]) -> u64
    requires { Numeral word.now }
    ensures { result ≡ digits_value 10 word.now }
{
    word.iter().fold(0, |n, b| n * 10 + u64::from(*b - b'0'))
}

// The word that the bytes of `s` are, if they are one.
pub(crate) fn token(s: &[u8]) -> Option<Token<'_>>
    ensures { MatchOption result (IsWord s.now → ⊥) (λ t. Tells s.now t) }
{
    match s {
        [b'-'] => Some(Token::Dash(s)),
        [b'A'..=b'Z'] => Some(Token::Letter(s)),
        [b'0'] => Some(Token::Digits(s)),
        [b'1'..=b'9', ..] if s.len() <= 19 && all_digits(s) => Some(Token::Digits(s)),
        _ => None,
    }
}
