ghost use Rattle.std.specs.Prelude.{◌≡◌, ◌↔◌, IsTrue};
ghost use Rattle.als_page.specs.Page.{id_of, state_of};
ghost use Rattle.als_frames.specs.Frames.{IsFree, clean_frame};
ghost use Rattle.als_frames.specs.Outcomes.{synced_frame};
ghost use Rattle.als_frames.specs.Leases.{lent_frame, returned_frame, recalled_frame};

use crate::lent::Lent;
use crate::lsns::Lsns;
use als_page::Page;
use als_record::Lsn;
use std::marker::Model;

/// A page in memory, the page_LSNs of its images last written and last synced, and its lease while
/// it is lent.
#[derive(Drop)]
pub struct Frame {
    page: Page,
    written: Lsn,
    synced: Lsn,
    lent: Option<Lent>,
}

impl Model for Frame {
    ghost use Rattle.als_page.specs.Page.{id_of, state_of};
    ghost use Rattle.als_frames.specs.Frames.{Framed};

    ghost Value = { Framed };

    ghost view = { λ f. record {
      id = id_of f.page;
      content = state_of f.page;
      written = f.written.0;
      synced = f.synced.0;
      lent = f.lent;
    } };
}

impl Frame {
    /// The frame of a page as its block has it.
    pub fn of(page: Page) -> Frame
        ensures { result ≡ clean_frame (id_of page) (state_of page) }
    {
        let lsn = page.lsn();
        Frame {
            page,
            written: lsn,
            synced: lsn,
            lent: None,
        }
    }

    /// The page as it is now.
    pub fn page(&self) -> &Page
        ensures number { id_of result.now ≡ self.now.id }
        ensures state { state_of result.now ≡ self.now.content }
    {
        &self.page
    }

    /// Its page_LSNs.
    pub fn lsns(&self) -> Lsns
        ensures now { result.now.0 ≡ self.now.content.lsn }
        ensures written { result.written.0 ≡ self.now.written }
        ensures synced { result.synced.0 ≡ self.now.synced }
    {
        Lsns {
            now: self.page.lsn(),
            written: self.written,
            synced: self.synced,
        }
    }

    /// Whether the frame may be taken from its page: the page is the image last synced, and is not
    /// lent.
    pub fn is_free(&self) -> bool
        ensures { IsTrue result ↔ IsFree self.now }
    {
        self.lent.is_none() && self.page.lsn().0 == self.synced.0
    }

    /// The lease of the page, while it is lent.
    pub fn lent(&self) -> Option<Lent>
        ensures { result ≡ self.now.lent }
    {
        self.lent
    }

    /// Whether the page is the image last written.
    pub fn is_written(&self) -> bool
        ensures { IsTrue result ↔ (self.now.written ≡ self.now.content.lsn) }
    {
        self.written.0 == self.page.lsn().0
    }

    /// Notes that the page is lent.
    pub fn lend(&mut self, lent: Lent)
        ensures { self.new ≡ lent_frame lent self.old }
    {
        self.lent = Some(lent);
    }

    /// Takes the page back as a lease has made it.
    pub fn take_back(&mut self, page: &Page)
        requires { id_of page.now ≡ self.old.id }
        ensures { self.new ≡ returned_frame (state_of page.now) self.old }
    {
        self.page = *page;
        self.recall();
    }

    /// Notes that the page is no longer lent.
    pub fn recall(&mut self)
        ensures { self.new ≡ recalled_frame self.old }
    {
        self.lent = None;
    }

    /// Notes that the page was written as it is now.
    pub fn note_written(&mut self)
        ensures { self.new ≡ record self.old { written = self.old.content.lsn } }
    {
        self.written = self.page.lsn();
    }

    /// Notes that the image last written was synced.
    pub fn note_synced(&mut self)
        ensures { self.new ≡ synced_frame self.old }
    {
        self.synced = self.written;
    }
}
