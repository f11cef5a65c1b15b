use crate::redo_lines::RedoLines;
use crate::strangers::Strangers;
use als_drive::Progress;
use als_followers::{Notice, What};
use als_primary::{Announces, BadToken, Refusal, Serving};
use als_record::{FIRST_LSN, Lsn};
use als_ship::Fault as SessionFault;
use std::alloc::{AllocError, Global};
use std::io::Write;
use std::net::{IpAddr, SocketAddr};
use std::time::Clock;

/// What a primary says to who runs it.
#[derive(Drop)]
pub struct ServingLines<'a, W: Write, C> {
    redo: RedoLines<'a, W, C>,
    /// Which follower was refused last, and why. It asks again and again; the same is printed once.
    refused: Option<(IpAddr, SessionFault)>,
    /// Who was reported that may not follow.
    strangers: Strangers,
    clock: &'a C,
}

impl<'a, W: Write, C: Clock> ServingLines<'a, W, C> {
    /// Lines for everybody; how a long redo goes on for a person, if one sees them.
    pub fn new(errors: W, clock: &'a C, seen: bool) -> ServingLines<'a, W, C> {
        ServingLines {
            redo: RedoLines::new(errors, clock, seen, false),
            refused: None,
            strangers: Strangers::new(),
            clock,
        }
    }
}

impl<W: Write, C: Clock> Progress for ServingLines<'_, W, C> {
    fn waits(&mut self, changes: u64) {
        self.redo.waits(changes);
    }
}

// Where it can't be said, the primary serves all the same.
impl<W: Write, C: Clock> Announces for ServingLines<'_, W, C> {
    fn serves(&mut self, dir: &str, addr: SocketAddr, epoch: u32, end: Lsn) {
        let _ = writeln!(
            self.redo.errors(),
            "primary of {dir} serves at {addr}: epoch {epoch}, LSN {}",
            end.0
        );
        if end <= FIRST_LSN {
            let _ = writeln!(
                self.redo.errors(),
                "als: {dir}: a new database: nothing was ever committed in it"
            );
        }
    }

    fn listens(&mut self, addr: SocketAddr, sync: u32) {
        let _ = writeln!(
            self.redo.errors(),
            "standbys may follow at {addr}; a commit waits for {sync} of them"
        );
    }

    fn unconfirmed(&mut self, sync: u32, seconds: u64) {
        let _ = writeln!(
            self.redo.errors(),
            "als: commits have waited for {seconds} s: {sync} standbys of different folders have to acknowledge them"
        );
    }

    fn follower(&mut self, notice: Notice) {
        let peer = notice.peer;
        let refused = match notice.what {
            What::Refused(fault) => Some((peer, fault)),
            _ => None,
        };
        if refused.is_some() && refused == self.refused {
            return;
        }
        if let (What::Stranger, Ok(now)) = (notice.what, self.clock.monotonic()) {
            if !self.strangers.is_due(peer, now) {
                return;
            }
        }
        self.refused = refused;
        let errors = self.redo.errors();
        let _ = match notice.what {
            What::Came(lsn) => writeln!(errors, "als: {peer} follows from {}", lsn.0),
            What::Ended => writeln!(errors, "als: {peer} follows no more"),
            What::Went(fault) => writeln!(errors, "als: {peer} follows no more: {fault}"),
            What::Refused(fault) => writeln!(errors, "als: {peer} was refused: {fault}"),
            What::Stranger => writeln!(errors, "als: {peer} may not follow"),
            What::Twin => writeln!(
                errors,
                "als: {peer} was hung up on: a standby with its folder's id follows"
            ),
            What::Crowded => writeln!(errors, "als: {peer} was hung up on: 8 standbys follow"),
        };
    }

    fn nearly_full(&mut self, end: Lsn, capacity: u64) {
        let _ = writeln!(
            self.redo.errors(),
            "als: the log has {} of the {capacity} bytes that its device takes: als grow makes it longer; at 2147483648 bytes als begin makes a new log",
            end.0
        );
    }
}

/// Why a primary does not serve, where that is a fault of the command line.
pub fn text_of(alloc: Global, why: Refusal, serving: Serving<'_>) -> Result<String, AllocError> {
    match why {
        Refusal::BadToken(why) => {
            let path = serving.token_file.unwrap_or("");
            let words = words_of(why);
            format!(in alloc; "als: {path}: {words}\n")
        }
        Refusal::Unguarded | Refusal::Ended(_) => {
            let addr = serving.serve;
            format!(in alloc;
                "als: {addr} is not an address of the loopback, so that anybody could commit: give --token-file\n"
            )
        }
    }
}

/// Why the file of a token is refused, in plain words.
fn words_of(why: BadToken) -> &'static str {
    match why {
        BadToken::Unreadable => "the file of the token can't be read",
        BadToken::Shared => "others may read or write the file of the token: chmod 600 it",
        BadToken::Short => "the token has fewer than 16 bytes",
        BadToken::Long => "the token has more than 4096 bytes",
        BadToken::Unsendable => {
            "the token has a blank, a line end or another byte that no request can bring"
        }
        BadToken::Memory => "there is no memory for the token",
    }
}
