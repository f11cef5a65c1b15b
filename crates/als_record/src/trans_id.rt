/// The number of a transaction. A primary gives numbers out rising, from 1 on.
#[derive(Clone, Copy, Debug, Default, PartialEq, Eq, PartialOrd, Ord)]
pub struct TransId(pub u32);
