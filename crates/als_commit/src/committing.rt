/// The names and numbers of the command.
#[derive(Clone, Copy, Debug)]
pub struct Committing<'a> {
    /// The folder of the primary's database.
    pub dir: &'a str,
    /// Pages that it has to have, 1 to 4,096. None: as many as it has.
    pub pages: Option<u64>,
    /// Blocks that its log device has to have at least, 1 to 4,194,304. None: as many as it has.
    pub log_blocks: Option<u64>,
    /// The lines that one force makes durable, 1 to 1,000.
    pub batch: u64,
    /// Whether a line that is neither a transaction nor a decision is skipped.
    pub skip_bad: bool,
}
