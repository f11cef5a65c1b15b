use crate::words::Words;

/// The first line of a script: how large the standby and its devices are.
#[derive(Clone, Copy)]
pub struct WorldLine {
    pub pages: u64,
    /// Blocks of the log device.
    pub log: u64,
    pub frames: u64,
    /// Slots for leases.
    pub workers: u64,
    /// How many changes may be pending before feeding is refused.
    pub pending: u64,
}

impl WorldLine {
    /// The world of a line; None where it is no world line.
    pub fn parse(line: &str) -> Option<WorldLine> {
        let mut words = Words::of(line);
        if words.next()? != "world" {
            return None;
        }
        let world = WorldLine {
            pages: words.labelled("pages=")?,
            log: words.labelled("log=")?,
            frames: words.labelled("frames=")?,
            workers: words.labelled("workers=")?,
            pending: words.labelled("pending=")?,
        };
        words.ending(world)
    }
}
