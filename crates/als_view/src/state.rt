use crate::history::Token;
use als_commits::Commit;

/// What the two copies have in common. No value of it is made: contracts speak of it.
pub struct State {
    pub pages: u32,
    pub listed: bool,
    pub list: [Commit; 0],
    pub seen: Token,
}

/// What a mark carries. No value of it is made.
pub struct Marked {
    pub seen: Token,
}
