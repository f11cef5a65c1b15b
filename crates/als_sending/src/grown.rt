/// What waiting for a log to grow meets.
#[derive(Clone, Copy, Debug, PartialEq, Eq)]
pub enum Grown {
    /// Its end is past the offset.
    Past,
    /// It did not grow for a while.
    Beat,
    /// It will not grow any more.
    Ends,
}
