// Why a mark or a tie is not taken.
#[derive(Clone, Copy, PartialEq, Eq, Debug)]
pub enum MarkFault {
    // the labels are not those of two of the units
    NoPair,
    // a mark is at most 10,000
    High,
}
