// What a pair's last word writes: how unlike the two units are, or that nobody compared them. A type apart from the marks of
// a sheet, since a line may write any number of 64 bits, and this crate uses no other.
#[derive(Clone, Copy, PartialEq, Eq, Debug)]
pub enum Mark {
    Number(u64),
    Gap,
}

// The letter by which a line names a yardstick: S, G or T.
#[derive(Clone, Copy, PartialEq, Eq, Debug)]
pub enum YardstickLetter {
    Spread,
    Gradient,
    Target,
}

// What a line asks for. Numbers and labels are those of the text, whether or not a sheet takes them.
#[derive(Clone, Copy, PartialEq, Eq, Debug)]
pub enum Command {
    // U n: open a sheet of n units
    Open { units: u64 },
    // P a b d or P a b -: write the mark of a pair, or make it a gap
    Pair { a: u64, b: u64, mark: Mark },
    // T a b: a stands earlier than b
    Tie { a: u64, b: u64 },
    // F a b: that tie is taken away
    Untie { a: u64, b: u64 },
    // R y k: rank by the yardstick y, and give the k-th best order
    Rank { by: YardstickLetter, number: u64 },
}
