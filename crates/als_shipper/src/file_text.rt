ghost use Rattle.std.specs.Prelude.{◌≡◌, length};
ghost use Rattle.als_wire.specs.Reading.{IsHeader};
ghost use Rattle.als_sending.specs.declared.account.Account.TheVariants as account;

use als_epochs::History;
use als_record::LogHeader;
use als_sending::{Account, Growing, Grown};
use als_ship::{Fault, Source};
use std::os::unix::fs::FileExt;

/// The log of a file up to an end that stays, of a node with a history. That a read of the file gives the log's
/// bytes is a premise.
pub struct FileText<F> {
    file: F,
    header: LogHeader,
    history: History,
    end: u64,
    /// The end that was told last.
    shown: u64,
    /// What was read, for clauses alone.
    account: Account,
    ghost range: { IsHeader header },
}

impl<F: Drop> Drop for FileText<F> {
    fn drop(self) {
        let FileText {
            file,
            header: _,
            history: _,
            end: _,
            shown: _,
            account,
        } = self;
        drop(file);
        drop(account);
    }
}

impl<F: FileExt> FileText<F> {
    /// The log of this file as far as a source has it, of the source's node.
    pub fn of<S: Source>(file: F, source: &S) -> FileText<F>
        ensures history { result.history ≡ S.seals source.now }
        ensures end { result.end ≡ length (S.text source.now) }
        ensures unread { result.account ≡ account.Nothing }
    {
        FileText {
            file,
            header: source.header(),
            history: source.history(),
            end: source.end(),
            shown: 0,
            account: Account::Nothing,
        }
    }
}

impl<F: FileExt> Growing for FileText<F> {
    ghost use Rattle.als_sending.specs.Accounts.{reads_of};

    ghost reads = { λ text. reads_of text.account };

    ghost seals = { λ text. text.history };

    ghost pages = { λ text. text.header.pages };

    ghost shown = { λ text. text.shown };

    fn header(&self) -> LogHeader {
        self.header
    }

    fn history(&self) -> History {
        self.history
    }

    fn end(&mut self) -> Result<u64, Fault> {
        self.shown = self.shown.max(self.end);
        Ok(self.shown)
    }

    fn wait_past(&mut self, _at: u64) -> Result<Grown, Fault> {
        Ok(Grown::Ends)
    }

    fn read_at(&mut self, at: u64, buf: &mut [u8]) -> Result<(), Fault> {
        match self.file.read_exact_at(buf, at) {
            Ok(()) => {
                self.account.read(at, buf);
                Ok(())
            }
            Err(_) => Err(Fault::Stream),
        }
    }
}
