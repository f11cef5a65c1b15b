ghost use Rattle.std.specs.Prelude.{◌≡◌, ◌==◌, [], length, IfOk, IsOk};
ghost use Rattle.als_commits.specs.Committing.{writes_in};
ghost use Rattle.als_commits.specs.Left.{writes_left};

use crate::gathered_writes::GatheredWrites;
use crate::shared_writes::SharedWrites;
use crate::writes_left::WritesLeft;
use als_record::{BodyView, KeptUpdate};
use std::alloc::{AllocError, Global};
use std::marker::Model;

/// What a commit writes, in order. The copies of a commit share it.
pub struct Writes {
    // None: there are no writes, and no memory is taken for them.
    kept: Option<SharedWrites>,
}

// Written out: a derived drop is proved wherever a commit is dropped, this one only here.
impl Drop for Writes {
    fn drop(self) {
        let Writes { kept } = self;
        drop(kept);
    }
}

impl Model for Writes {
    ghost use Rattle.std.specs.Prelude.{List};
    ghost use Rattle.als_record.specs.Commits.{Write};
    ghost use Rattle.als_commits.specs.Sharing.{writes_kept};

    ghost Value = { List Write };

    ghost view = { λ w. writes_kept w.kept };
}

impl Writes {
    /// What updates write, in order. It takes no memory where there are none.
    pub(crate) fn of(alloc: Global, updates: &[KeptUpdate]) -> Result<Writes, AllocError>
        ensures ok { IfOk result (λ writes. writes ≡ writes_in updates.now) }
        ensures reserved { updates.now ≡ [] → IsOk result }
    {
        if updates.is_empty() {
            return Ok(Writes { kept: None });
        }
        let gathered = gather(alloc, updates)?;
        let writes = gathered.share()?;
        Ok(writes)
    }

    /// These writes.
    pub(crate) fn of_shared(shared: SharedWrites) -> Writes
        ensures { result ≡ shared }
    {
        Writes { kept: Some(shared) }
    }

    /// The same writes once more. They are not copied.
    pub(crate) fn again(&self) -> Result<Writes, AllocError>
        ensures { IfOk result (λ w. w ≡ self.now) }
    {
        match &self.kept {
            None => Ok(Writes { kept: None }),
            Some(shared) => {
                let again = shared.again()?;
                Ok(Writes { kept: Some(again) })
            }
        }
    }

    /// The writes, to be read one after another.
    pub fn left(&self) -> WritesLeft<'_>
        ensures { writes_left result ≡ self.now }
    {
        match &self.kept {
            None => WritesLeft::none(),
            Some(shared) => shared.left(),
        }
    }

    /// How many writes these are.
    pub fn len(&self) -> usize
        ensures { result ≡ length self.now }
    {
        match &self.kept {
            None => 0,
            Some(shared) => shared.len(),
        }
    }

    /// Are there none?
    pub fn is_empty(&self) -> bool
        ensures { result ≡ (length self.now == 0) }
    {
        self.len() == 0
    }
}

/// How many bytes the values have that updates write. It sizes memory alone.
fn bytes_written(updates: &[KeptUpdate]) -> usize {
    let mut bytes = 0usize;
    for update in updates {
        if let BodyView::Update { after, .. } = &update.view().body {
            bytes = bytes.saturating_add(after.len());
        }
    }
    bytes
}

/// What updates write, in order, in memory of just their size.
fn gather(alloc: Global, updates: &[KeptUpdate]) -> Result<GatheredWrites, AllocError>
    ensures { IfOk result (λ writes. writes ≡ writes_in updates.now) }
{
    let mut writes = GatheredWrites::with_just(alloc, updates.len(), bytes_written(updates))?;
    for update in updates {
        if let BodyView::Update { key, after, .. } = &update.view().body {
            writes.add(*key, after)?;
        }
    }
    Ok(writes)
}
