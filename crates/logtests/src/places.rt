use loglines::token::{Token, Word};
use loglines::words::word;

// The word that is wanted at a place.
fn at(place: usize, token: Token<'_>) -> Option<Word<'_>> {
    Some(Word { token, place })
}

#[test]
fn words_by_place(rt: HostRuntime) {
    let line = b"P 1 20 -";
    assert_eq!(rt; word(line, 0), at(0, Token::Letter(b"P")));
    assert_eq!(rt; word(line, 1), at(1, Token::Digits(b"1")));
    assert_eq!(rt; word(line, 2), at(2, Token::Digits(b"20")));
    assert_eq!(rt; word(line, 3), at(3, Token::Dash(b"-")));
    assert_eq!(rt; word(line, 4), None);
}

#[test]
fn no_words(rt: HostRuntime) {
    assert_eq!(rt; word(b"", 0), None);
    assert_eq!(rt; word(b"U  3", 1), None);
    assert_eq!(rt; word(b"U  3", 2), at(2, Token::Digits(b"3")));
    assert_eq!(rt; word(b"U 03", 1), None);
    assert_eq!(rt; word(b"U 3", 18_446_744_073_709_551_615), None);
}
