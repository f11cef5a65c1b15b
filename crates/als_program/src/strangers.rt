use std::net::IpAddr;
use std::time::Duration;

/// Of so many strangers it is known when each was reported last.
const MOST: usize = 64;

/// One is reported again after so many seconds.
const TOLD: u64 = 60;

/// Who may not follow and was reported, and when: somebody who comes again and again is reported once a minute.
#[derive(Clone, Copy)]
pub struct Strangers {
    told: [Option<Stranger>; MOST],
    /// Whose place the next one takes.
    next: usize,
}

/// One of them, and when he was reported last.
#[derive(Clone, Copy)]
struct Stranger {
    peer: IpAddr,
    at: Duration,
}

impl Strangers {
    /// Nobody was reported.
    pub fn new() -> Strangers {
        Strangers {
            told: [None; MOST],
            next: 0,
        }
    }

    /// Whether it is time to report this one. Then he is taken for reported.
    pub fn is_due(&mut self, peer: IpAddr, now: Duration) -> bool {
        let place = self.place_of(peer);
        let Some(known) = self.told.get_mut(place) else {
            return true;
        };
        if let Some(before) = *known {
            let is_told = now.saturating_sub(before.at) < Duration::from_secs(TOLD);
            if before.peer == peer && is_told {
                return false;
            }
        }
        *known = Some(Stranger { peer, at: now });
        if place == self.next {
            let behind = place.saturating_add(1);
            self.next = if behind < MOST { behind } else { 0 };
        }
        true
    }

    /// The place of one who was reported, or that of the next.
    fn place_of(&self, peer: IpAddr) -> usize {
        for (place, known) in self.told.iter().enumerate() {
            if let Some(known) = known {
                if known.peer == peer {
                    return place;
                }
            }
        }
        self.next
    }
}
