/// Why a worker ended.
#[derive(Clone, Copy, Debug, PartialEq, Eq)]
pub enum Ended {
    /// It took a stop.
    Stop,
    /// The queue had no job and gets no more.
    Empty,
    /// The gate stopped it.
    Gate,
    /// The queue handed an unfinished lease back.
    Back,
    /// No memory for one more offer.
    Memory,
}
