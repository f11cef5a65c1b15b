ghost use Rattle.std.specs.Prelude.{◌≡◌, IfOk};
ghost use Rattle.als_primary.specs.Guards.{token_of};

use crate::chair::Chair;
use crate::doubts::Doubts;
use als_asking::{Asking, Guard, Lent, Shown, Withheld};
use als_engine::Reader;
use als_http::{Answering, Hosts};
use als_lead::Answer;
use als_report::{Board, Watch};
use als_tickets::{Asker, Naming, Oath};
use als_writer::Work;
use std::alloc::{AllocError, Global};
use std::sync::{Arc, Mutex, Wait};
use std::time::{Clock, Duration};

/// The service of reads. Threads share it.
type Reads<R> = Answering<Watch<R>>;

/// The service of a thread.
pub(crate) type Service<R, O, J> = Withheld<Asking<Chair<R, O, J>, Lent<Reads<R>, R>>, R>;

/// What the services of all threads have in common.
#[derive(Drop)]
pub(crate) struct Common<'a, R> {
    pub rt: &'a R,
    pub alloc: Global,
    pub board: &'a Arc<Board, Global>,
    pub doubts: &'a Arc<Doubts, Global>,
    pub shown: &'a Arc<Shown, Global>,
    pub guard: &'a Guard,
    pub hosts: Hosts,
    /// How long a piece of work may wait to begin.
    pub patience: Duration,
}

impl<R: Wait + Clock + Clone + Drop> Common<'_, R> {
    /// A service for each asker, with its clock. Several services share a reader.
    pub fn services<O: Oath<Work, Answer>, J: Naming>(
        &self,
        askers: Vec<Asker<Work, Answer, O, J>>,
        readers: Vec<Reader>,
    ) -> Result<Vec<(Service<R, O, J>, R)>, AllocError> {
        let shared = self.share(readers)?;
        let mut services = Vec::with_capacity(self.alloc, askers.len())?;
        for asker in askers {
            let place = services.len() % shared.len().max(1);
            let Some(reads) = shared.get(place) else {
                break;
            };
            let service = self.service(asker, Arc::try_clone(reads)?)?;
            services.push((service, self.rt.clone()?))?;
        }
        Ok(services)
    }

    /// A service of reads for each reader, to be shared.
    fn share(&self, readers: Vec<Reader>) -> Result<Vec<Arc<Mutex<Reads<R>>, Global>>, AllocError> {
        let mut shared = Vec::with_capacity(self.alloc, readers.len())?;
        for reader in readers {
            let watch = Watch::new(Arc::try_clone(self.board)?, self.rt.clone()?);
            let mut reads = Answering::new(self.alloc, reader, watch);
            reads.answer_for(self.hosts);
            shared.push(Arc::new(self.alloc, Mutex::new(reads))?)?;
        }
        Ok(shared)
    }

    /// The service of an asker.
    fn service<O: Oath<Work, Answer>, J: Naming>(
        &self,
        asker: Asker<Work, Answer, O, J>,
        reads: Arc<Mutex<Reads<R>>, Global>,
    ) -> Result<Service<R, O, J>, AllocError> {
        let doubts = Arc::try_clone(self.doubts)?;
        let chair = Chair::new(self.rt.clone()?, self.alloc, asker, doubts, self.patience);
        let lent = Lent::new(self.rt.clone()?, reads);
        let guard = copy_of(self.alloc, self.guard)?;
        let asking = Asking::new(self.alloc, guard, self.hosts, chair, lent);
        let shown = Arc::try_clone(self.shown)?;
        Ok(Withheld::new(self.alloc, self.rt.clone()?, shown, asking))
    }
}

/// A copy of a guard.
fn copy_of(alloc: Global, guard: &Guard) -> Result<Guard, AllocError>
    ensures { IfOk result (λ copy. token_of copy ≡ token_of guard.now) }
{
    match guard {
        Guard::Loopback => Ok(Guard::Loopback),
        Guard::Token(token) => Ok(Guard::Token(token.as_slice().to_vec(alloc)?)),
    }
}
