ghost use Rattle.std.specs.Prelude.{◌≡◌, Some, IsTrue, IfSome, ◌↔◌};
ghost use Rattle.als_scan.specs.Wanted.{IsWanted, page_of};

use als_record::{Body, Lsn, Record, TransId};

/// Which records are asked for: those that meet all of it.
#[derive(Clone, Copy, Debug)]
pub struct Wanted {
    /// From there on.
    pub from: Lsn,
    /// Of this transaction, if any is named.
    pub trans: Option<TransId>,
    /// That write this page, if any is named.
    pub page: Option<u32>,
}

impl Wanted {
    /// Whether the record is asked for.
    pub fn admits(&self, logged: &Record) -> bool
        ensures { IsTrue result ↔ IsWanted self.now logged.now }
    {
        self.from.0 <= logged.lsn.0
            && self.admits_trans(logged.trans)
            && self.admits_page(&logged.body)
    }

    /// Whether records of the transaction are asked for.
    fn admits_trans(&self, trans: TransId) -> bool
        ensures { IsTrue result ↔ IfSome self.now.trans (λ t. trans ≡ t) }
    {
        match self.trans {
            None => true,
            Some(wanted) => wanted == trans,
        }
    }

    /// Whether records with this body are asked for.
    fn admits_page(&self, body: &Body) -> bool
        ensures { IsTrue result ↔ IfSome self.now.page (λ p. page_of body.now ≡ Some p) }
    {
        match self.page {
            None => true,
            Some(wanted) => match page_of(body) {
                None => false,
                Some(page) => page == wanted,
            },
        }
    }
}

/// The page that a record with this body writes.
fn page_of(body: &Body) -> Option<u32>
    ensures { result ≡ page_of body.now }
{
    match body {
        Body::Update { key, .. } => Some(key.page),
        Body::Compensation { key, .. } => Some(key.page),
        _ => None,
    }
}
