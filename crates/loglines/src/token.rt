// A word of a line, by its kind. Each case lends the word's bytes from the line.
#[derive(Clone, Copy, PartialEq, Eq, Debug)]
pub enum Token<'a> {
    // one capital letter
    Letter(&'a [u8]),
    // 1 to 19 digits, with no needless leading zero
    Digits(&'a [u8]),
    // the one byte `-`
    Dash(&'a [u8]),
}

// A word and its place in its line: 1 is the first word after the line's letter.
#[derive(Clone, Copy, PartialEq, Eq, Debug)]
pub struct Word<'a> {
    pub token: Token<'a>,
    pub place: usize,
}
