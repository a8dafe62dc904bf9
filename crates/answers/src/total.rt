// The total of an order: one number, or two of which the first counts more.
#[derive(Clone, Copy, PartialEq, Eq, Debug)]
pub enum Total {
    One(i64),
    Two(i64, i64),
}
