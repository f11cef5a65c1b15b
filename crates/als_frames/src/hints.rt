use std::alloc::{AllocError, Global};
use std::marker::Model;

/// Where the frame of each page may stand: a look-up tries this place before it searches by hash.
/// Nobody relies on it: what stands at the place says whether it is right.
pub(crate) struct Hints {
    // By page. Empty as long as there was no memory for it.
    places: Vec<u16>,
}

// Written out: a derived drop is proved wherever the hints are dropped, this one only here.
impl Drop for Hints {
    fn drop(self) {
        let Hints { places } = self;
        drop(places);
    }
}

// Any hints are as good as others.
impl Model for Hints {
    ghost Value = { Unit {0} };

    ghost view = { λ _. tt };
}

impl Hints {
    /// No hints yet.
    pub(crate) fn new(alloc: Global) -> Hints {
        Hints {
            places: Vec::new(alloc),
        }
    }

    /// Makes a place for the hint of each page, where there is none yet.
    pub(crate) fn reserve(&mut self, pages: u32) -> Result<(), AllocError> {
        if !self.places.is_empty() {
            return Ok(());
        }
        self.places.reserve(pages as usize)?;
        for _page in 0..pages {
            self.places.push(0)?;
        }
        Ok(())
    }

    /// Where the page's frame may stand.
    #[inline(always)]
    pub(crate) fn of(&self, page: u32) -> usize {
        match self.places.get(page as usize) {
            Some(place) => usize::from(*place),
            None => 0,
        }
    }

    /// Notes where the page's frame stands.
    pub(crate) fn note(&mut self, page: u32, place: usize) {
        if let Some(noted) = self.places.get_mut(page as usize) {
            *noted = u16::try_from(place).unwrap_or(0);
        }
    }
}
