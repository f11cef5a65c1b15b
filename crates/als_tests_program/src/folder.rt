use std::alloc::Global;
use std::fs;
use std::fs::File;
use std::rt::Files;

/// The bytes of a folder's three files, for a database of four pages: a log that is acknowledged to
/// its end, of which no page has seen anything.
#[derive(Drop)]
pub struct Folder {
    pub log: Vec<u8>,
    pub control: Vec<u8>,
    pub pages: Vec<u8>,
}

impl Folder {
    /// The files of this log. `None`: allocation failed.
    pub fn of(alloc: Global, text: &[u8]) -> Option<Folder> {
        let mut log = Vec::from_slice(alloc, text).ok()?;
        log.resize(
            text.len()
                .div_ceil(512)
                .saturating_add(1)
                .saturating_mul(512),
            0,
        )
        .ok()?;
        let mut control = Vec::from_slice(alloc, b"ALSCTL01\0\x01\x01\0\0\0\0\x04").ok()?;
        control
            .extend_from_slice(&(text.len() as u64).to_be_bytes())
            .ok()?;
        control.resize(321 * 512, 0).ok()?;
        let mut pages = Vec::new(alloc);
        pages.resize(4 * 512, 0).ok()?;
        Some(Folder {
            log,
            control,
            pages,
        })
    }

    /// Writes them into a folder that is there. `None`: that failed.
    pub fn write<R: Files<File = File>>(&self, rt: &R, names: [&str; 3]) -> Option<()> {
        fs::write(rt, names[0], self.log.as_slice()).ok()?;
        fs::write(rt, names[1], self.control.as_slice()).ok()?;
        fs::write(rt, names[2], self.pages.as_slice()).ok()
    }
}
