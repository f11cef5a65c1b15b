ghost use Rattle.std.specs.Prelude.{◌≡◌, ◌∷◌, IfOk, OnOk};
ghost use Rattle.als_service.specs.Inquiries.{inquiries_of, IsAsked, LetsFollow, MayFollow, MayBegin};
ghost use Rattle.als_service.specs.Inquiries.{Looked, Put};

use crate::front::Front;
use crate::inquiries::Inquiries;
use crate::patience::Patience;
use crate::shipping::log_file;
use crate::standing::Standing;
use als_compare::{Summary, Verdict, ask, said_first};
use als_comparing::HeldLog;
use als_operate::{Fault, Following, dial};
use als_report::{Reports, Watch};
use als_ship::Fault as SessionFault;
use std::fs::File;
use std::net::{Net, OpenStream};
use std::rt::Files;
use std::thread;
use std::time::{Clock, Duration};

/// Milliseconds between two questions.
const PAUSE: u64 = 200;

/// A standby's own log, of which its primary is asked whether it has the same.
pub(crate) struct Comparing<R: Clock> {
    /// What is held, and under which epoch.
    watch: Watch<R>,
    /// The log's file, once it was read.
    own: Option<HeldLog<File>>,
    /// How it begins.
    front: Front,
    /// The last question was not answered.
    is_unanswered: bool,
    patience: Patience,
    /// A primary that does not answer is followed all the same.
    pub(crate) uncompared: bool,
    /// What was asked, for clauses alone.
    pub(crate) inquiries: Inquiries,
}

impl<R: Clock + Drop> Drop for Comparing<R> {
    fn drop(self) {
        let Comparing {
            watch,
            own,
            front,
            is_unanswered: _,
            patience,
            uncompared: _,
            inquiries,
        } = self;
        drop(watch);
        drop(own);
        drop(front);
        drop(patience);
        drop(inquiries);
    }
}

impl<R: Clock> Comparing<R> {
    /// The log whose figures are seen there. A primary that does not compare is followed only where `uncompared` is
    /// given.
    pub fn new(watch: Watch<R>, uncompared: bool) -> Comparing<R>
        ensures { result.uncompared ≡ uncompared }
    {
        Comparing {
            watch,
            own: None,
            front: Front::new(),
            is_unanswered: false,
            patience: Patience::new(),
            uncompared,
            inquiries: Inquiries::Nothing,
        }
    }

    /// Whether the primary was asked in vain.
    pub fn was_unanswered(&self) -> bool {
        self.is_unanswered
    }

    /// What is held now.
    fn look(&mut self) -> Standing
        ensures inquiries { inquiries_of self.new.inquiries
            ≡ Looked result ∷ inquiries_of self.old.inquiries }
        ensures uncompared { self.new.uncompared ≡ self.old.uncompared }
    {
        self.is_unanswered = false;
        let report = self.watch.report();
        let standing = Standing {
            epoch: report.epoch,
            end: report.acknowledged.0,
        };
        self.inquiries.look(standing);
        standing
    }
}

impl<C: Clock> Comparing<C> {
    /// Asks the primary, where a record is held, over connections of their own, whether its log is the held one.
    ///
    /// OtherLog: it has another one. Gap: it has less of one, and no session begins: by then it could have
    /// more, which nobody compared. Cut: it hung up each time. Stream: there was no connection, or no answer in time;
    /// or the own log can't be read. Folder: the own log is not there any more. Memory: there was none to read it.
    pub fn clear<R: AllocGlobal + Files<File = File> + Net + Clock>(
        &mut self,
        rt: &R,
        following: Following<'_>,
    ) -> Result<(), Fault>
        // No session begins uncompared over a held record, unless the caller said so.
        ensures { OnOk result (MayBegin self.old.uncompared (inquiries_of self.old.inquiries)
            (inquiries_of self.new.inquiries)) }
    {
        let standing = self.look();
        if !standing.holds() {
            return Ok(());
        }
        let question = self.question(rt, following, standing)?;
        self.compare(rt, following, &question)?;
        Ok(())
    }

    /// Asks the primary whether its log is that of the question, and where it parts from that or is shorter, whether it
    /// begins as that. One that hangs up each time may be followed only where nothing has to be compared.
    #[tactic(auto, using(crate::proofs::Parting::parts_later))]
    fn compare<R: AllocGlobal + Files<File = File> + Net + Clock>(
        &mut self,
        rt: &R,
        following: Following<'_>,
        question: &Summary,
    ) -> Result<(), Fault>
        ensures { OnOk result (MayFollow self.old.uncompared question.now
            (inquiries_of self.old.inquiries) (inquiries_of self.new.inquiries)) }
    {
        let verdict = self.verdict_on(rt, following, question)?;
        self.is_unanswered = verdict.is_none();
        match verdict {
            Some(Verdict::Same) => Ok(()),
            Some(Verdict::Other) => Err(Fault::OtherLog),
            Some(Verdict::Shorter) => {
                let begun = self.front.ask(rt, following, &self.patience, question.end);
                Err(refusal_of_shorter(begun))
            }
            Some(Verdict::Parted) => {
                let begun = self.front.ask(rt, following, &self.patience, question.end);
                self.inquiries.begin(begun);
                judged(said_first(Verdict::Parted, begun))?;
                Ok(())
            }
            None if self.uncompared => Ok(()),
            None => Err(Fault::Session(SessionFault::Cut)),
        }
    }

    /// What the primary is asked about the log that is held.
    fn question<R: AllocGlobal + Files<File = File>>(
        &mut self,
        rt: &R,
        following: Following<'_>,
        standing: Standing,
    ) -> Result<Summary, Fault>
        ensures end { IfOk result (λ question. question.end ≡ standing.end) }
        ensures inquiries { self.new.inquiries ≡ self.old.inquiries }
        ensures uncompared { self.new.uncompared ≡ self.old.uncompared }
    {
        let epoch = u32::try_from(standing.epoch.unwrap_or(0)).unwrap_or(u32::MAX);
        let mut own = match self.own.take() {
            Some(own) => own,
            None => HeldLog::new(log_file(rt, following.dir)?),
        };
        let question = own.summary(rt.alloc(), epoch, standing.end);
        self.own = Some(own);
        match question {
            Ok(question) => Ok(Summary {
                end: standing.end,
                ..question
            }),
            Err(SessionFault::Memory) => Err(Fault::Memory),
            Err(_) => Err(Fault::Stream),
        }
    }

    /// What the primary answers to the question. None: it hangs up, three times. One that has just begun, or has no
    /// place, does so too, and may take a session a moment later. Stream: there was no connection, or no answer in
    /// time.
    fn verdict_on<R: AllocGlobal + Net + Clock>(
        &mut self,
        rt: &R,
        following: Following<'_>,
        question: &Summary,
    ) -> Result<Option<Verdict>, Fault>
        ensures asked { IfOk result (IsAsked question.now (inquiries_of self.old.inquiries)
            (inquiries_of self.new.inquiries)) }
        ensures uncompared { self.new.uncompared ≡ self.old.uncompared }
    {
        if let Some(verdict) = self.answer_to(rt, following, question)? {
            return Ok(Some(verdict));
        }
        if let Some(verdict) = self.later_answer(rt, following, question)? {
            return Ok(Some(verdict));
        }
        match self.later_answer(rt, following, question)? {
            Some(verdict) => Ok(Some(verdict)),
            None => Ok(None),
        }
    }

    /// What the primary answers a moment later.
    fn later_answer<R: AllocGlobal + Net + Clock>(
        &mut self,
        rt: &R,
        following: Following<'_>,
        question: &Summary,
    ) -> Result<Option<Verdict>, Fault>
        ensures asked { IfOk result (λ answer. inquiries_of self.new.inquiries
            ≡ Put question.now answer ∷ inquiries_of self.old.inquiries) }
        ensures uncompared { self.new.uncompared ≡ self.old.uncompared }
    {
        thread::sleep(rt, Duration::from_millis(PAUSE));
        self.answer_to(rt, following, question)
    }

    /// What the primary answers to one question. None: it hangs up, or what it sends is no answer. Stream: there
    /// was no connection, or no answer in time. The primary reads its log before it answers.
    fn answer_to<R: AllocGlobal + Net + Clock>(
        &mut self,
        rt: &R,
        following: Following<'_>,
        question: &Summary,
    ) -> Result<Option<Verdict>, Fault>
        ensures asked { IfOk result (λ answer. inquiries_of self.new.inquiries
            ≡ Put question.now answer ∷ inquiries_of self.old.inquiries) }
        ensures uncompared { self.new.uncompared ≡ self.old.uncompared }
    {
        let limit = self.patience.limit(following.timeout, question.end);
        match answer_within(rt, following, question, limit)? {
            Came::Answer(answer) => {
                self.patience.was_answered();
                self.inquiries.note(question, answer);
                Ok(answer)
            }
            Came::Nothing => {
                self.patience.was_over();
                Err(Fault::Stream)
            }
        }
    }
}

/// Whether a log of which this is said may be followed.
fn judged(said: Verdict) -> Result<(), Fault>
    ensures { OnOk result (LetsFollow said) }
{
    match said {
        Verdict::Same | Verdict::Parted => Ok(()),
        Verdict::Other => Err(Fault::OtherLog),
        Verdict::Shorter => Err(Fault::Session(SessionFault::Gap)),
    }
}

/// Why a log that is shorter is not followed, where this came to the questions about how the held one begins.
fn refusal_of_shorter(begun: Option<Verdict>) -> Fault {
    match said_first(Verdict::Shorter, begun) {
        Verdict::Other => Fault::OtherLog,
        Verdict::Same | Verdict::Shorter | Verdict::Parted => Fault::Session(SessionFault::Gap),
    }
}

/// What came to a question.
#[derive(Clone, Copy)]
pub(crate) enum Came {
    /// An answer. None: the primary hung up, or what it sent is none.
    Answer(Option<Verdict>),
    /// Nothing, for as long as it was waited for.
    Nothing,
}

/// What the primary answers to one question over a connection of its own, within a limit. Stream: there was no
/// connection.
pub(crate) fn answer_within<R: AllocGlobal + Net + Clock>(
    rt: &R,
    following: Following<'_>,
    question: &Summary,
    limit: Option<Duration>,
) -> Result<Came, Fault> {
    let mut writer = dial(rt, following)?;
    let mut reader = writer.try_clone()?;
    reader.set_read_timeout(limit)?;
    let begun = rt.monotonic()?;
    match ask(question, &mut reader, &mut writer) {
        Ok(verdict) => Ok(Came::Answer(Some(verdict))),
        Err(_) if is_over(limit, rt.monotonic()?.saturating_sub(begun)) => Ok(Came::Nothing),
        Err(_) => Ok(Came::Answer(None)),
    }
}

/// Whether an answer took that long.
fn is_over(limit: Option<Duration>, waited: Duration) -> bool {
    match limit {
        Some(limit) => waited >= limit,
        None => false,
    }
}
