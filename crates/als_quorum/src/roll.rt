ghost use Rattle.std.specs.Prelude.{◌≡◌, ◌≢◌, ◌<◌, ◌↔◌, ◌≤◌, ◌⊎◌, ℕ, IsTrue, IfOk, IfSome, IfNone, None, Some, length, min, option_map};
ghost use Rattle.std.specs.Vec.{vec_len};
ghost use Rattle.als_quorum.specs.Enough.{HasEnough};
ghost use Rattle.als_quorum.specs.Names.{IsTaken, IsThere};
ghost use Rattle.als_quorum.specs.Rows.{row_of, ChangesRow, IsNew, raised};
ghost use Rattle.als_quorum.specs.declared.row.Row.{Row as AnyRow};

use crate::counting::count_names;
use crate::folder_id::FolderId;
use crate::row::Row;
use crate::wanted::Wanted;
use als_callers::Allowed;
use als_record::Lsn;
use std::alloc::{AllocError, Global};
use std::net::IpAddr;
use std::time::Duration;

/// The most seats of a roll.
pub const SEATS: u32 = 8;

/// The rows of all seats. A seat without a row is free.
pub struct Roll {
    rows: Vec<Option<Row>>,
    ghost few: { vec_len rows ≤ 8 },
}

impl Drop for Roll {
    fn drop(self) {
        let Roll { rows } = self;
        drop(rows);
    }
}

impl Roll {
    /// A roll with this many free seats, at most eight.
    pub fn new(alloc: Global, seats: u32) -> Result<Roll, AllocError>
        ensures count { IfOk result (λ roll. length roll.rows.items ≡ min seats 8) }
        ensures free { IfOk result (λ roll. (seat : ℕ) → row_of roll.rows.items seat ≡ None) }
    {
        let mut rows = Vec::new(alloc);
        rows.resize(seats.min(SEATS) as usize, None)?;
        Ok(Roll { rows })
    }

    /// The rows, by seat.
    pub fn rows(&self) -> &[Option<Row>]
        ensures { result.now ≡ self.now.rows.items }
    {
        self.rows.as_slice()
    }

    /// Takes a free seat for a follower with this address and the id that it sent, which has acknowledged
    /// nothing yet. None: no seat is free, or the follower of a seat has that id.
    pub fn join(&mut self, peer: IpAddr, id: Option<FolderId>, now: Duration) -> Option<u32>
        ensures joins { IfSome result (λ seat. (row_of self.old.rows.items seat ≡ None)
            × ((row : AnyRow) × IsNew peer id now row
            × ChangesRow self.old.rows.items self.new.rows.items seat (Some row))) }
        // No id has two seats.
        ensures once { IfSome result (λ _. ¬ (IsThere self.old.rows.items id)) }
        ensures none { IfNone result (IsThere self.old.rows.items id
            ⊎ ((seat : ℕ) → seat < length self.old.rows.items
            → row_of self.old.rows.items seat ≢ None)) }
        ensures same { IfNone result (self.new.rows.items ≡ self.old.rows.items) }
    {
        let rows = self.rows.as_slice();
        if is_there(rows, id) {
            return None;
        }
        let at = first_free(rows)?;
        self.rows[at] = Some(Row {
            peer: peer.to_canonical(),
            id,
            acknowledged: Lsn(0),
            round: 0,
            connected: now,
            heard: None,
        });
        Some(at as u32)
    }

    /// The follower of a seat has acknowledged the log up to there, in its answer to a frame of this round. Only its
    /// row changes, and neither its LSN nor its round ever falls.
    pub fn acknowledge(&mut self, seat: u32, lsn: Lsn, round: u64, now: Duration)
        ensures { ChangesRow self.old.rows.items self.new.rows.items seat
            (option_map (raised lsn round now) (row_of self.old.rows.items seat)) }
    {
        let at = seat as usize;
        if at < self.rows.len() {
            if let Some(row) = self.rows[at] {
                self.rows[at] = Some(row.raised(lsn, round, now));
            }
        }
    }

    /// Frees a seat. What its follower acknowledged is forgotten: it has to acknowledge again when it is
    /// back.
    pub fn leave(&mut self, seat: u32)
        ensures { ChangesRow self.old.rows.items self.new.rows.items seat None }
    {
        let at = seat as usize;
        if at < self.rows.len() {
            self.rows[at] = None;
        }
    }

    /// Whether `count` followers of different names, at addresses that count, have acknowledged what is wanted: of
    /// different folders, or of different addresses where they sent no id.
    pub fn has_enough(&self, allowed: &Allowed, count: u32, wanted: Wanted) -> bool
        ensures { IsTrue result
            ↔ HasEnough allowed.now.blocks.items self.now.rows.items count wanted }
    {
        count_names(self.rows.as_slice(), allowed, wanted) >= count as usize
    }
}

/// Whether a row has the id that a follower sent. One that sent none is never there.
fn is_there(rows: &[Option<Row>], id: Option<FolderId>) -> bool
    ensures { IsTrue result ↔ IsThere rows.now id }
{
    match id {
        Some(id) => is_taken(rows, id),
        None => false,
    }
}

/// Whether a row has this id.
fn is_taken(rows: &[Option<Row>], id: FolderId) -> bool
    ensures { IsTrue result ↔ IsTaken rows.now id }
{
    for row in rows {
        if is_of(row, id) {
            return true;
        }
    }
    false
}

/// Whether a seat's row has this id.
fn is_of(row: &Option<Row>, id: FolderId) -> bool
    ensures { IsTrue result ↔ ((own : AnyRow) × (row.now ≡ Some own) × (own.id ≡ Some id)) }
{
    match row {
        Some(own) => own.has_id(id),
        None => false,
    }
}

/// The first free seat. None: no seat is free.
fn first_free(rows: &[Option<Row>]) -> Option<usize>
    ensures free { IfSome result (λ at. (at < length rows.now) × (row_of rows.now at ≡ None)) }
    ensures full { IfNone result ((seat : ℕ) → seat < length rows.now
        → row_of rows.now seat ≢ None) }
{
    for (at, row) in rows.iter().enumerate() {
        if row.is_none() {
            return Some(at);
        }
    }
    None
}
