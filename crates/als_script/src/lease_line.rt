use crate::words::Words;

/// A line of one step over a lease in a worker slot.
#[derive(Clone, Copy)]
pub enum LeaseLine {
    /// `lend P W`: lends a page into a slot.
    Lend { page: u32, slot: u64 },
    /// `redo W`: redoes the next change of the lease in a slot.
    Redo { slot: u64 },
    /// `hand W V`: moves a lease to another slot.
    Hand { from: u64, to: u64 },
    /// `give W`: gives the lease in a slot back.
    Give { slot: u64 },
    /// `drop W`: drops the lease in a slot; its page stays lent.
    Drop { slot: u64 },
}

impl LeaseLine {
    /// The step of a line; None where it is no lease line.
    pub fn parse(line: &str) -> Option<LeaseLine> {
        let mut words = Words::of(line);
        let step = match words.next()? {
            "lend" => LeaseLine::Lend {
                page: words.number()?,
                slot: words.number()?,
            },
            "redo" => LeaseLine::Redo {
                slot: words.number()?,
            },
            "hand" => LeaseLine::Hand {
                from: words.number()?,
                to: words.number()?,
            },
            "give" => LeaseLine::Give {
                slot: words.number()?,
            },
            "drop" => LeaseLine::Drop {
                slot: words.number()?,
            },
            _ => return None,
        };
        words.ending(step)
    }
}
