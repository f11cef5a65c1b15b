use als_engine::{Events, Fault};
use als_lead::{PrimaryUpkeep, Upkeep};
use als_record::Lsn;
use std::sync::Wait;

/// What becomes of a confirmation.
#[derive(Clone, Copy)]
pub enum Word {
    Yes,
    No,
    Fails,
}

/// The upkeep of a primary whose others answer by two scripts. Behind the end of a script each answer is
/// `Yes`.
#[derive(Drop)]
pub struct Others<'a, R: Wait> {
    pub upkeep: PrimaryUpkeep<'a, R>,
    /// What becomes of each group's confirmation, in order.
    pub groups: &'a [Word],
    /// What is answered before each group.
    pub before: &'a [Word],
    /// How many answers each script has given.
    pub confirmed: usize,
    pub asked: usize,
    /// How often readers were shown what is acknowledged, and how often upkeep was done.
    pub shown: u32,
    pub kept_up: u32,
}

impl<'a, R: Wait> Others<'a, R> {
    /// No answer was given.
    pub fn new(rt: &'a R, end: Lsn, groups: &'a [Word], before: &'a [Word]) -> Others<'a, R> {
        Others {
            upkeep: PrimaryUpkeep::new(rt, 0, end),
            groups,
            before,
            confirmed: 0,
            asked: 0,
            shown: 0,
            kept_up: 0,
        }
    }
}

impl<R: Wait> Upkeep for Others<'_, R> {
    ghost confirmed = { λ others n. Unit {0} };

    fn publish<E: Events>(&mut self, engine: &mut E) -> Result<(), Fault> {
        self.shown = self.shown.saturating_add(1);
        self.upkeep.publish(engine)
    }

    fn keep_up<E: Events>(&mut self, engine: &mut E) -> Result<(), Fault> {
        self.kept_up = self.kept_up.saturating_add(1);
        self.upkeep.keep_up(engine)
    }

    fn confirm(&mut self, _end: Lsn) -> Result<bool, Fault> {
        let word = word_at(self.groups, self.confirmed);
        self.confirmed = self.confirmed.saturating_add(1);
        answer_of(word)
    }

    fn has_confirmed(&mut self, _end: Lsn) -> Result<bool, Fault> {
        let word = word_at(self.before, self.asked);
        self.asked = self.asked.saturating_add(1);
        answer_of(word)
    }
}

/// The word at a place of a script.
fn word_at(script: &[Word], at: usize) -> Word {
    match script.get(at) {
        Some(word) => *word,
        None => Word::Yes,
    }
}

/// What a word answers.
fn answer_of(word: Word) -> Result<bool, Fault> {
    match word {
        Word::Yes => Ok(true),
        Word::No => Ok(false),
        Word::Fails => Err(Fault::Device),
    }
}
