use als_fanout::{Sessions, Strayed};
use als_operate::Fault as FolderFault;
use als_record::Lsn;
use als_ship::Fault;
use als_shipper::Meetings;
use std::io::Write;
use std::net::IpAddr;

/// Says whom a shipper passed over, and how far its follower got.
#[derive(Drop)]
pub struct MeetingLines<W: Write> {
    errors: W,
    told: bool,
}

impl<W: Write> MeetingLines<W> {
    /// Lines for who asked for them, if anybody did.
    pub fn new(errors: W, told: bool) -> MeetingLines<W> {
        MeetingLines { errors, told }
    }
}

// Where it can't be said, the shipper goes on.
impl<W: Write> Meetings for MeetingLines<W> {
    fn passed_over(&mut self, fault: Fault) {
        if self.told {
            let _ = writeln!(
                self.errors,
                "als: passed over a connection that asked for no log: {fault}"
            );
        }
    }

    fn acknowledged(&mut self, lsn: Option<Lsn>) {
        if self.told {
            let _ = match lsn {
                Some(lsn) => writeln!(
                    self.errors,
                    "als: the follower has acknowledged the log up to {}",
                    lsn.0
                ),
                None => writeln!(self.errors, "als: the follower has acknowledged nothing"),
            };
        }
    }
}

// What ends a session early is said to everybody: the shipper goes on.
impl<W: Write> Sessions for MeetingLines<W> {
    fn ended(&mut self, fault: Fault) {
        let _ = writeln!(self.errors, "als: a session ended early: {fault}");
    }

    fn strayed(&mut self, why: Strayed) {
        let _ = writeln!(self.errors, "als: the log file {}", why.words());
    }

    fn closed(&mut self, fault: FolderFault) {
        let _ = writeln!(
            self.errors,
            "als: a follower came, and the folder gave no log: {fault}"
        );
    }

    fn crowded(&mut self, peer: IpAddr) {
        let _ = writeln!(self.errors, "als: {peer} was hung up on: 8 standbys follow");
    }
}
