/// A lease that was offered to `give`: its number, its turn, and whether it was finished.
#[derive(Clone, Copy, Debug, PartialEq, Eq)]
pub struct Offer {
    pub number: u64,
    pub turn: usize,
    pub finished: bool,
}
