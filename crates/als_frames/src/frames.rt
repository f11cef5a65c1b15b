//! Frames: pages in memory over their blocks on the device.
//!
//! ```text
//! frames in their order:   written since the last sync | otherwise not free | free
//!                          0 .. written                | written .. dirty   | dirty ..
//! ```
//!
//! Rules:
//! 1. A frame is free where its page is the image last synced and is not lent. Only free frames are
//!    replaced.
//! 2. A write leaves its frame not free until a sync: a crash may still leave the older image.
//! 3. A frame that changes its state swaps places at the border of its zone, so a look for a free
//!    frame and the work of a sync do not walk all frames.
//! 4. A lent page keeps its frame and its content until it is taken back. So all that is said of
//!    the pages holds while some of them are lent.
//! 5. After a failed write the images are in doubt (`sure` is false), and no sync settles them.

ghost use Rattle.std.specs.Prelude.{List, ◌++◌, Contains, IsTrue, ◌≡◌, ◌<◌, ◌≤◌, ◌+◌, ℕ, []};
ghost use Rattle.std.specs.Prelude.{IsSome, IsOk, IfSome, IfOk, IfErr, OnOk, OnErr, Some, None};
ghost use Rattle.std.specs.Prelude.{option_map, ◌↔◌};
ghost use Rattle.std.specs.Result.{IsErrOf};
ghost use Rattle.als_disk.specs.Slot.{only};
ghost use Rattle.als_disk.specs.Store.{zeros};
ghost use Rattle.als_page.specs.Page.{id_of, state_of};
ghost use Rattle.als_frames.specs.declared.fault.Fault.TheVariants.{PoolFull as IsPoolFull};
ghost use Rattle.als_frames.specs.declared.fault.Fault.TheVariants.{Memory as OutOfMemory};
ghost use Rattle.als_frames.specs.Frames.{Framed, Paged, IsPaged, frame_of, slot_of};
ghost use Rattle.als_frames.specs.Frames.{without_frames};
ghost use Rattle.als_frames.specs.Leases.{lent_of, leases_of, CanLend, IsLent, CanTakeBack, Lends};
ghost use Rattle.als_frames.specs.Leases.{TakesBack, Recalls};
ghost use Rattle.als_record.specs.declared.change.Change.{Change as AnyChange};
ghost use Rattle.als_record.specs.declared.record.Record.{Record as AnyRecord};
ghost use Rattle.als_record.specs.LogText.{end_of, IsLog};
ghost use Rattle.als_record.specs.Pages.{page_at, changes_above};
ghost use Rattle.als_page.specs.Changes.{redone_all};
ghost use Rattle.als_frames.specs.Images.{AreFramesOf, IsStoredAt, IsImageOf, written_or};
ghost use Rattle.als_frames.specs.Outcomes.{IsFull, IsFetched, RefusesFetch, PutsIn, IsFound};
ghost use Rattle.als_frames.specs.Outcomes.{RefusesReading, Writes, RefusesWrite, Syncs, SyncFails};

use crate::fault::Fault;
use crate::frame::Frame;
use crate::hints::Hints;
use crate::lent::Lent;
use crate::lsns::Lsns;
use crate::unformatted::Unformatted;
use crate::zones::Zones;
use crate::{blocks, table};
use als_disk::BlockDisk;
use als_page::Page;
use als_record::Lsn;
use indexmap::IndexMap;
use std::alloc::Global;
use std::marker::Model;

/// The pages of a database on a block device, page p in block p, and some of them in memory in
/// frames.
///
/// A page that is changed has a frame. Its image reaches the device by a write, and is certain to
/// survive a crash from the next sync on. A frame is free where its page is the image last synced;
/// free frames alone are taken from their pages.
pub struct Frames<D: BlockDisk> {
    disk: D,
    pages: u32,
    most: usize,
    frames: IndexMap<u32, Frame>,
    // Where the frame of each page may stand among them.
    hints: Hints,
    // How many of them, in their order, were written since the last sync, and how many are not
    // free.
    zones: Zones,
    // For how many more frames there is room with no memory, at least.
    room: usize,
    // The place of the frame that is replaced next, if it is free. It goes round the free ones.
    hand: usize,
    // No write has failed.
    sure: bool,
    // How many pages are lent.
    leases: usize,
}

// Written out: a derived drop is proved wherever the frames are dropped, this one only here.
impl<D: BlockDisk + Drop> Drop for Frames<D> {
    fn drop(self) {
        let Frames {
            disk,
            pages: _,
            most: _,
            frames,
            hints,
            zones: _,
            room: _,
            hand: _,
            sure: _,
            leases: _,
        } = self;
        drop(disk);
        drop(frames);
        drop(hints);
    }
}

impl<D: BlockDisk> Model for Frames<D> {
    ghost use Rattle.indexmap.specs.IndexMap.{spare};
    ghost use Rattle.als_frames.specs.Frames.{Holding, slots_from};
    ghost use Rattle.als_frames.specs.Kept.{IsHeld};

    ghost Value = { Holding };

    ghost view = { λ f. record {
      paged = record {
        pages = f.pages;
        most = f.most;
        frames = f.frames.entries;
        slots = slots_from 0 f.pages (D.slot f.disk);
        blocks = D.block_count f.disk;
        failures = D.failures f.disk;
        attempts = D.attempts f.disk;
        sure = f.sure;
      };
      spare = f.room;
    } };

    ghost invariant = { λ f. IsHeld f.pages f.most
        (D.block_count f.disk) f.frames.entries f.zones f.room (spare f.frames) f.leases };
}

impl<D: BlockDisk> Frames<D> {
    /// Lays out a device as a database of so many empty pages, of which at most `most` can be in
    /// memory: writes the block of the empty page to the block of each page, and syncs. It takes no
    /// memory. The device comes back with a fault.
    ///
    /// `Device`: the device failed.
    pub fn format(
        alloc: Global,
        disk: D,
        pages: u32,
        most: usize,
    ) -> Result<Frames<D>, Unformatted<D>>
        requires { pages ≤ D.block_count disk }
        ensures ok { IfOk result (λ f. f.paged
            ≡ without_frames pages most (λ _. only zeros) (D.block_count disk) (D.failures disk)
            (D.attempts disk + pages + 1)) }
        ensures keeps { IfOk result (λ f. (below : ℕ) → AreFramesOf [] (λ _. 0) below f.paged) }
        ensures err { IfErr result (λ u. (u.fault ≡ Fault.Device)
            × (D.failures disk < D.failures u.disk) × (D.block_count u.disk ≡ D.block_count disk)) }
    {
        let mut disk = disk;
        match blocks::lay_out(&mut disk, pages) {
            Ok(()) => Ok(Frames::open(alloc, disk, pages, most)),
            Err(_) => Err(Unformatted {
                disk,
                fault: Fault::Device,
            }),
        }
    }

    /// The pages of a database that was laid out before, none of them resident. It neither reads
    /// nor takes memory.
    pub fn open(alloc: Global, disk: D, pages: u32, most: usize) -> Frames<D>
        requires { pages ≤ D.block_count disk }
        ensures shows { result.paged ≡ without_frames pages most (D.slot disk) (D.block_count disk)
            (D.failures disk) (D.attempts disk) }
        // For every log of whose pages each block has one stable image, the pages are that log's.
        ensures keeps { (log : List AnyRecord) (synced : ℕ → ℕ) (below : ℕ) → IsLog pages log
            → ((page : ℕ) → page < pages
            → IsStoredAt log page below (synced page) (D.slot disk page))
            → AreFramesOf log synced below result.paged }
    {
        Frames {
            disk,
            pages,
            most,
            frames: IndexMap::new(alloc),
            hints: Hints::new(alloc),
            zones: Zones {
                written: 0,
                dirty: 0,
            },
            room: 0,
            hand: 0,
            sure: true,
            leases: 0,
        }
    }

    /// The page, if it is resident.
    pub fn frame(&self, page: u32) -> Option<&Page>
        ensures content { option_map (λ p. state_of p.now) result
            ≡ option_map (λ f. f.content) (frame_of self.now.paged page) }
        ensures number { IfSome result (λ p. id_of p.now ≡ page) }
        // For every log that the pages are of, it is history repeated up to its page_LSN.
        ensures history { IfSome result (λ p. (log : List AnyRecord) (synced : ℕ → ℕ) (below : ℕ)
            → AreFramesOf log synced below self.now.paged
            → state_of p.now ≡ page_at log page (state_of p.now).lsn) }
    {
        let frame = table::find(&self.frames, &self.hints, page)?;
        Some(frame.page())
    }

    /// The page_LSNs of the page, if it is resident.
    pub fn lsns(&self, page: u32) -> Option<Lsns>
        ensures now { option_map (λ l. l.now.0) result
            ≡ option_map (λ f. f.content.lsn) (frame_of self.now.paged page) }
        ensures written { option_map (λ l. l.written.0) result
            ≡ option_map (λ f. f.written) (frame_of self.now.paged page) }
        ensures synced { option_map (λ l. l.synced.0) result
            ≡ option_map (λ f. f.synced) (frame_of self.now.paged page) }
    {
        let frame = table::find(&self.frames, &self.hints, page)?;
        Some(frame.lsns())
    }

    /// How many pages there are.
    pub fn pages(&self) -> u32
        ensures pages { result ≡ self.now.paged.pages }
        ensures facts { IsPaged self.now.paged }
    {
        self.pages
    }

    /// Whether the page is resident.
    pub fn is_resident(&self, page: u32) -> bool
        ensures { IsTrue result ↔ IsSome (frame_of self.now.paged page) }
    {
        table::find(&self.frames, &self.hints, page).is_some()
    }

    /// Reads a page that has no frame, for `put`, and changes no frame. `end` is the end of the
    /// log.
    ///
    /// `PoolFull`: all frames are used, and none is free. `Device`: the device failed. `BadPage`:
    /// the block is not that of this page with a page_LSN below `end`. They come in this order.
    pub fn fetch(&mut self, page: u32, end: Lsn) -> Result<Page, Fault>
        requires in_range { page < self.old.paged.pages }
        requires absent { frame_of self.old.paged page ≡ None }
        ensures number { IfOk result (λ found. id_of found ≡ page) }
        ensures ok { IfOk result (λ found. IsFetched self.old.paged page end.0 (state_of found)) }
        ensures same { OnOk result (self.new.paged ≡ self.old.paged) }
        ensures spare { self.new.spare ≡ self.old.spare }
        ensures err { IfErr result (λ e. RefusesFetch e self.old.paged self.new.paged page end.0) }
        ensures full { IsFull self.old.paged page → IsErrOf result IsPoolFull }
        // For every log that the pages are of, they stay so, and the page that is found is the
        // log's.
        ensures keeps { (log : List AnyRecord) (synced : ℕ → ℕ) (below : ℕ)
            → AreFramesOf log synced below self.old.paged
            → AreFramesOf log synced below self.new.paged }
        ensures history { IfOk result (λ found. (log : List AnyRecord) (synced : ℕ → ℕ) (below : ℕ)
            → AreFramesOf log synced below self.old.paged
            → state_of found ≡ page_at log page (synced page)) }
        ensures sound { (log : List AnyRecord) (synced : ℕ → ℕ) (below : ℕ)
            → AreFramesOf log synced below self.old.paged
            → end_of log ≤ end.0 → IsErrOf result (Fault.BadPage page) → ⊥ }
    {
        self.fetch_in(page, end)
    }

    /// Makes room for one more frame: the next `put` takes no memory. An `Err` (Memory) changes
    /// nothing but the room.
    pub fn reserve(&mut self) -> Result<(), Fault>
        ensures same { self.new.paged ≡ self.old.paged }
        ensures ok { OnOk result (0 < self.new.spare) }
        ensures memory { IfErr result (λ e. e ≡ OutOfMemory) }
        ensures reserved { 0 < self.old.spare → IsOk result }
    {
        self.frames.reserve(1)?;
        let _ = self.hints.reserve(self.pages);
        self.room = self.room.max(1);
        Ok(())
    }

    /// Makes a page resident that has no frame, as its block has it: in a new frame, or else in a
    /// free one, which its page loses. It takes no memory and always succeeds.
    pub fn put(&mut self, found: Page)
        requires in_range { id_of found < self.old.paged.pages }
        requires absent { frame_of self.old.paged (id_of found) ≡ None }
        requires can { IsFull self.old.paged (id_of found) → ⊥ }
        requires room { 0 < self.old.spare }
        ensures puts { PutsIn self.old.paged self.new.paged (id_of found) (state_of found) }
        // For every log that the pages are of, they stay so, where the page is the log's.
        ensures keeps { (log : List AnyRecord) (synced : ℕ → ℕ) (below : ℕ)
            → state_of found ≡ page_at log (id_of found) (synced (id_of found))
            → AreFramesOf log synced below self.old.paged
            → AreFramesOf log synced below self.new.paged }
    {
        self.put_in(found);
    }

    /// Lends a resident page that is not lent. It takes no memory and always succeeds.
    pub fn lend(&mut self, page: u32, lent: Lent)
        requires { CanLend self.old.paged page }
        ensures lends { Lends self.old.paged self.new.paged page lent }
        ensures spare { self.new.spare ≡ self.old.spare }
        // For every log that the pages are of, they stay so.
        ensures keeps { (log : List AnyRecord) (synced : ℕ → ℕ) (below : ℕ)
            → AreFramesOf log synced below self.old.paged
            → AreFramesOf log synced below self.new.paged }
    {
        self.lend_in(page, lent);
    }

    /// Takes back a page that is lent, as a lease has made it. It takes no memory and always
    /// succeeds.
    pub fn take_back(&mut self, page: u32, found: &Page)
        requires number { id_of found.now ≡ page }
        requires can { CanTakeBack self.old.paged page (state_of found.now) }
        ensures takes_back { TakesBack self.old.paged self.new.paged page (state_of found.now) }
        ensures spare { self.new.spare ≡ self.old.spare }
        // For every log that the pages are of, they stay so, where the page was made by the redo of
        // its next changes in the log.
        ensures keeps { (log : List AnyRecord) (synced : ℕ → ℕ) (below : ℕ)
            (changes rest : List AnyChange)
            → ((f : Framed) → frame_of self.old.paged page ≡ Some f
            → (state_of found.now ≡ redone_all f.content changes)
            × (changes_above log page f.content.lsn ≡ changes ++ rest))
            → AreFramesOf log synced below self.old.paged
            → AreFramesOf log synced below self.new.paged }
    {
        self.take_back_in(page, found);
    }

    /// Ends the lease of a page; its content stays as it was lent. It takes no memory and always
    /// succeeds.
    pub fn recall(&mut self, page: u32)
        requires { IsLent self.old.paged page }
        ensures recalls { Recalls self.old.paged self.new.paged page }
        ensures spare { self.new.spare ≡ self.old.spare }
        // For every log that the pages are of, they stay so.
        ensures keeps { (log : List AnyRecord) (synced : ℕ → ℕ) (below : ℕ)
            → AreFramesOf log synced below self.old.paged
            → AreFramesOf log synced below self.new.paged }
    {
        self.recall_in(page);
    }

    /// The lease of a page, while it is lent.
    pub fn lent_of(&self, page: u32) -> Option<Lent>
        ensures { result ≡ lent_of self.now.paged page }
    {
        let frame = table::find(&self.frames, &self.hints, page)?;
        frame.lent()
    }

    /// How many pages are lent.
    pub fn leases(&self) -> usize
        ensures { result ≡ leases_of self.now.paged }
    {
        self.leases
    }

    /// Writes a resident page to its block, by one write of the device. It takes no memory.
    ///
    /// `NothingToDo`: the page is not resident, or its image last written is the page as it is now;
    /// the device is not called. `Device`: the device failed, and the image may have been written
    /// or not.
    pub fn write(&mut self, page: u32) -> Result<(), Fault>
        ensures ok { OnOk result (Writes self.old.paged self.new.paged page) }
        ensures spare { self.new.spare ≡ self.old.spare }
        ensures err { IfErr result (λ e. RefusesWrite e self.old.paged self.new.paged page) }
        // For every log that the pages are of, they stay so, where the log up to the page's
        // page_LSN survives each crash.
        ensures keeps { (log : List AnyRecord) (synced : ℕ → ℕ) (below : ℕ)
            → ((f : Framed) → frame_of self.old.paged page ≡ Some f → f.content.lsn < below)
            → AreFramesOf log synced below self.old.paged
            → AreFramesOf log synced below self.new.paged }
    {
        self.write_out(page)
    }

    /// Makes the images that were written certain to survive a crash, by one sync of the device. It
    /// takes no memory.
    ///
    /// `Device`: the device failed, and no page has changed.
    pub fn sync(&mut self) -> Result<(), Fault>
        ensures ok { OnOk result (Syncs self.old.paged self.new.paged) }
        ensures spare { self.old.spare ≤ self.new.spare }
        ensures fault { IfErr result (λ e. e ≡ Fault.Device) }
        ensures err { OnErr result (SyncFails self.old.paged self.new.paged) }
        // For every log that the pages are of, they stay so: with the images last written as those
        // last synced, unless a write has failed.
        ensures keeps { OnOk result ((log : List AnyRecord) (synced : ℕ → ℕ) (below : ℕ)
            → IsTrue self.old.paged.sure
            → AreFramesOf log synced below self.old.paged
            → AreFramesOf log (λ page. written_or (frame_of self.old.paged page) (synced page))
            below self.new.paged) }
        ensures keeps_err { OnErr result ((log : List AnyRecord) (synced : ℕ → ℕ) (below : ℕ)
            → AreFramesOf log synced below self.old.paged
            → AreFramesOf log synced below self.new.paged) }
    {
        self.sync_all()
    }

    /// The page that a page with no frame has in its block. It takes no memory, and the page does
    /// not become resident.
    ///
    /// `Device`: the device failed. `BadPage`: the block is not that of this page.
    pub fn stored(&mut self, page: u32) -> Result<Page, Fault>
        requires { page < self.old.paged.pages }
        ensures number { IfOk result (λ found. id_of found ≡ page) }
        ensures ok { IfOk result (λ found. IsFound (slot_of self.old.paged page) page
            (state_of found)) }
        ensures same { OnOk result (self.new ≡ self.old) }
        ensures spare { self.new.spare ≡ self.old.spare }
        ensures err { IfErr result (λ e. RefusesReading e self.old.paged self.new.paged page) }
        // For every log that the pages are of, they stay so, and the page that is found is the
        // log's.
        ensures keeps { (log : List AnyRecord) (synced : ℕ → ℕ) (below : ℕ)
            → AreFramesOf log synced below self.old.paged
            → AreFramesOf log synced below self.new.paged }
        ensures history { IfOk result (λ found. (log : List AnyRecord) (synced : ℕ → ℕ) (below : ℕ)
            → AreFramesOf log synced below self.old.paged
            → frame_of self.old.paged page ≡ None
            → state_of found ≡ page_at log page (synced page)) }
        ensures sound { (log : List AnyRecord) (synced : ℕ → ℕ) (below : ℕ)
            → AreFramesOf log synced below self.old.paged
            → frame_of self.old.paged page ≡ None → IsErrOf result (Fault.BadPage page) → ⊥ }
    {
        self.read_stored(page)
    }

    /// The device, with what stands in the block of each page.
    pub fn into_disk(self) -> D
        ensures slots { (page : ℕ) → page < self.paged.pages
            → D.slot result page ≡ slot_of self.paged page }
        ensures count { D.block_count result ≡ self.paged.blocks }
        ensures failures { D.failures result ≡ self.paged.failures }
        ensures attempts { D.attempts result ≡ self.paged.attempts }
        ensures facts { IsPaged self.paged }
        // For every log that the pages are of: whatever a crash leaves in a page's block is a
        // stable image of it.
        ensures images { (log : List AnyRecord) (synced : ℕ → ℕ) (below : ℕ)
            → AreFramesOf log synced below self.paged
            → (page : ℕ) (content : List ℕ) → page < self.paged.pages
            → Contains (D.slot result page).candidates content
            → IsImageOf log page below (synced page) content }
    {
        let Frames {
            disk,
            pages: _,
            most: _,
            frames,
            hints,
            zones: _,
            room: _,
            hand: _,
            sure: _,
            leases: _,
        } = self;
        drop(frames);
        drop(hints);
        disk
    }

    // The private twins below carry what a call does; what it keeps for every log follows from that
    // at the public call.
    fn fetch_in(&mut self, page: u32, end: Lsn) -> Result<Page, Fault>
        requires in_range { page < self.old.paged.pages }
        requires absent { frame_of self.old.paged page ≡ None }
        ensures number { IfOk result (λ found. id_of found ≡ page) }
        ensures ok { IfOk result (λ found. IsFetched self.old.paged page end.0 (state_of found)) }
        ensures same { OnOk result (self.new.paged ≡ self.old.paged) }
        ensures spare { self.new.spare ≡ self.old.spare }
        ensures err { IfErr result (λ e. RefusesFetch e self.old.paged self.new.paged page end.0) }
    {
        let place = table::place(&self.frames, self.zones, self.most, self.hand)?;
        let found = blocks::read_page(&mut self.disk, page)?;
        if end.0 <= found.lsn().0 {
            return Err(Fault::BadPage { page });
        }
        self.hand = place.unwrap_or(self.hand);
        Ok(found)
    }

    fn put_in(&mut self, found: Page)
        requires in_range { id_of found < self.old.paged.pages }
        requires absent { frame_of self.old.paged (id_of found) ≡ None }
        requires can { IsFull self.old.paged (id_of found) → ⊥ }
        requires room { 0 < self.old.spare }
        ensures { PutsIn self.old.paged self.new.paged (id_of found) (state_of found) }
    {
        let page = found.id();
        match table::place(&self.frames, self.zones, self.most, self.hand) {
            Ok(place) => {
                let frame = Frame::of(found);
                table::put(
                    &mut self.frames,
                    &mut self.hints,
                    self.zones,
                    self.most,
                    place,
                    page,
                    frame,
                );
                self.room -= 1;
                self.hand = self.hand.saturating_add(1);
            }
            Err(_) => unreachable!(),
        }
    }

    fn lend_in(&mut self, page: u32, lent: Lent)
        requires { CanLend self.old.paged page }
        ensures lends { Lends self.old.paged self.new.paged page lent }
        ensures spare { self.new.spare ≡ self.old.spare }
    {
        table::lend(
            &mut self.frames,
            &mut self.hints,
            &mut self.zones,
            page,
            lent,
        );
        self.leases += 1;
    }

    fn take_back_in(&mut self, page: u32, found: &Page)
        requires number { id_of found.now ≡ page }
        requires can { CanTakeBack self.old.paged page (state_of found.now) }
        ensures takes_back { TakesBack self.old.paged self.new.paged page (state_of found.now) }
        ensures spare { self.new.spare ≡ self.old.spare }
    {
        table::take_back(
            &mut self.frames,
            &mut self.hints,
            &mut self.zones,
            page,
            found,
        );
        self.leases -= 1;
    }

    fn recall_in(&mut self, page: u32)
        requires { IsLent self.old.paged page }
        ensures recalls { Recalls self.old.paged self.new.paged page }
        ensures spare { self.new.spare ≡ self.old.spare }
    {
        table::recall(&mut self.frames, &mut self.hints, &mut self.zones, page);
        self.leases -= 1;
    }

    fn write_out(&mut self, page: u32) -> Result<(), Fault>
        ensures ok { OnOk result (Writes self.old.paged self.new.paged page) }
        ensures spare { self.new.spare ≡ self.old.spare }
        ensures err { IfErr result (λ e. RefusesWrite e self.old.paged self.new.paged page) }
    {
        let Some(frame) = table::find(&self.frames, &self.hints, page) else {
            return Err(Fault::NothingToDo);
        };
        if frame.is_written() {
            return Err(Fault::NothingToDo);
        }
        match blocks::write_page(&mut self.disk, frame.page()) {
            Ok(()) => {
                table::note_written(&mut self.frames, &mut self.hints, &mut self.zones, page);
                Ok(())
            }
            Err(_) => {
                self.sure = false;
                Err(Fault::Device)
            }
        }
    }

    fn sync_all(&mut self) -> Result<(), Fault>
        ensures ok { OnOk result (Syncs self.old.paged self.new.paged) }
        ensures spare { self.old.spare ≤ self.new.spare }
        ensures fault { IfErr result (λ e. e ≡ Fault.Device) }
        ensures err { OnErr result (SyncFails self.old.paged self.new.paged) }
    {
        self.disk.sync()?;
        table::note_synced(&mut self.frames, &mut self.hints, &mut self.zones);
        Ok(())
    }

    fn read_stored(&mut self, page: u32) -> Result<Page, Fault>
        requires { page < self.old.paged.pages }
        ensures number { IfOk result (λ found. id_of found ≡ page) }
        ensures ok { IfOk result (λ found. IsFound (slot_of self.old.paged page) page
            (state_of found)) }
        ensures same { OnOk result (self.new ≡ self.old) }
        ensures spare { self.new.spare ≡ self.old.spare }
        ensures err { IfErr result (λ e. RefusesReading e self.old.paged self.new.paged page) }
    {
        let found = blocks::read_page(&mut self.disk, page)?;
        Ok(found)
    }
}
