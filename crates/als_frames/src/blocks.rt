// Pages on the device.
ghost use Rattle.std.specs.Prelude.{◌≡◌, ◌<◌, ◌≤◌, ◌+◌, ℕ, IfOk, IfErr, OnOk, OnErr};
ghost use Rattle.als_disk.specs.Failures.{CountsFailure};
ghost use Rattle.als_disk.specs.Slot.{only, written, FailsToWrite, SameBlocks, SameBlocksBut};
ghost use Rattle.als_disk.specs.Store.{zeros};
ghost use Rattle.als_page.specs.Block.{block_of};
ghost use Rattle.als_page.specs.Page.{id_of, state_of};
ghost use Rattle.als_frames.specs.Outcomes.{IsFound, FailsToRead};

use crate::fault::Fault;
use als_disk::{BlockDisk, DeviceError};
use als_page::Page;

/// Makes a block of zeros the one content of each of the first blocks.
pub(crate) fn lay_out<D: BlockDisk>(disk: &mut D, pages: u32) -> Result<(), DeviceError>
    requires { pages ≤ D.block_count disk.old }
    ensures ok { OnOk result ((page : ℕ) → page < pages → D.slot disk.new page ≡ only zeros) }
    ensures count { D.block_count disk.new ≡ D.block_count disk.old }
    ensures failures { CountsFailure result (D.failures disk.old) (D.failures disk.new) }
    ensures attempts { OnOk result (D.attempts disk.new ≡ D.attempts disk.old + pages + 1) }
{
    for page in 0..pages {
        disk.write(u64::from(page), &[0; 512])?;
    }
    disk.sync()?;
    Ok(())
}

/// The page that a block has.
pub(crate) fn read_page<D: BlockDisk>(disk: &mut D, page: u32) -> Result<Page, Fault>
    requires { page < D.block_count disk.old }
    ensures number { IfOk result (λ found. id_of found ≡ page) }
    ensures ok { IfOk result (λ found. IsFound (D.slot disk.old page) page (state_of found)) }
    ensures done { OnOk result (D.failures disk.new ≡ D.failures disk.old) }
    ensures err { IfErr result (λ e. FailsToRead e (D.slot disk.old page) page (D.failures disk.old)
        (D.failures disk.new)) }
    ensures same { SameBlocks (D.slot disk.old) (D.slot disk.new) }
    ensures count { D.block_count disk.new ≡ D.block_count disk.old }
    ensures attempts { D.attempts disk.new ≡ D.attempts disk.old }
{
    let mut block = [0; 512];
    disk.read(u64::from(page), &mut block)?;
    match Page::read_block(page, &block) {
        Ok(found) => Ok(found),
        Err(_) => Err(Fault::BadPage { page }),
    }
}

/// Writes a page to the block of its number.
pub(crate) fn write_page<D: BlockDisk>(disk: &mut D, page: &Page) -> Result<(), DeviceError>
    requires { id_of page.now < D.block_count disk.old }
    ensures ok { OnOk result (D.slot disk.new (id_of page.now)
        ≡ written (D.slot disk.old (id_of page.now))
        (block_of (id_of page.now) (state_of page.now))) }
    ensures err { OnErr result (FailsToWrite (D.slot disk.old (id_of page.now))
        (D.slot disk.new (id_of page.now)) (block_of (id_of page.now) (state_of page.now))) }
    ensures others { SameBlocksBut (id_of page.now) (D.slot disk.old) (D.slot disk.new) }
    ensures count { D.block_count disk.new ≡ D.block_count disk.old }
    ensures failures { CountsFailure result (D.failures disk.old) (D.failures disk.new) }
    ensures attempts { D.attempts disk.new ≡ D.attempts disk.old + 1 }
{
    let mut block = [0; 512];
    page.write_block(&mut block);
    disk.write(u64::from(page.id()), &block)?;
    Ok(())
}
