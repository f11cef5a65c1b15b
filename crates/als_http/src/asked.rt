use als_console::Text;
use als_record::Key;

/// What a path asks for.
#[derive(Clone, Copy, Debug, PartialEq, Eq)]
pub enum Asked {
    /// `/keys/P/S`: the value of slot S of page P. A slot above 255, which no page has, is 255.
    Value(Key),
    /// `/keys/P`: the values of all slots of page P.
    Page(u32),
    /// `/read`: the values of the keys that the body names.
    Many,
    /// `/status`.
    Status,
    /// `/metrics`.
    Metrics,
    /// `/health`.
    Health,
    /// `/primary`.
    Primary,
    /// `/standby`.
    Standby,
    /// A text of the page: `/`, `/page.js` or `/page.css`.
    Console(Text),
    /// `/keys/P/S` or `/keys/P`, where P or S is not a number below 2^32.
    NoNumber,
    /// Any other path.
    Nothing,
}
