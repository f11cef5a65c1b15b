/// Which seals of a history a node has not reached.
#[derive(Clone, Copy, Debug, PartialEq, Eq)]
pub enum Unreached {
    /// Those above the end of its log.
    AboveEnd,
    /// Those at the end of its log too: it holds nothing from behind them.
    FromEnd,
}
