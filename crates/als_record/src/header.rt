/// The header of a log text, 16 bytes: it says how many pages the database has.
#[derive(Clone, Copy, Debug, PartialEq, Eq)]
pub struct LogHeader {
    pub pages: u32,
}
