/// The lease of a page, as its frame knows it.
#[derive(Clone, Copy, Debug, PartialEq, Eq)]
pub struct Lent {
    /// The lease's number.
    pub number: u64,
    /// How many changes were lent with the page.
    pub count: usize,
}
