ghost use Rattle.std.specs.Prelude.{◌≡◌, IfOk, map};
ghost use Rattle.als_asking.specs.declared.wanted.Wanted.TheVariants.{One, Each};
ghost use Rattle.als_asking.specs.Taking.{work_of, first_of, IsToldOf, IsTaken};

use crate::commits::Commits;
use crate::manner::Manner;
use crate::outcome::Outcome;
use crate::reading::wanted_in;
use crate::told::Told;
use crate::unread::Unread;
use crate::wanted::Wanted;
use als_writer::{Transaction, Work};
use std::alloc::{AllocError, Global};

/// Commits or prepares what a body asks for, and returns the answer to the request.
pub fn take<C: Commits>(alloc: Global, commits: &mut C, manner: Manner, body: &[u8]) -> Told
    ensures { IsTaken C.commits manner body.now commits.old result commits.new }
{
    match wanted_in(alloc, body) {
        Ok(Wanted::One(transaction)) => take_one(alloc, commits, manner, transaction),
        Ok(Wanted::Each(transactions)) => take_each(alloc, commits, manner, transactions),
        Err(why) => Told::Unread(why),
    }
}

/// Commits or prepares one transaction.
fn take_one<C: Commits>(
    alloc: Global,
    commits: &mut C,
    manner: Manner,
    transaction: Transaction,
) -> Told
    ensures { IsToldOf C.commits manner commits.old (One transaction) result commits.new }
{
    let mut asked = Vec::new(alloc);
    match asked.push(manner.work_of(transaction)) {
        Ok(()) => Told::One(first_of(commits.commit(asked).as_slice())),
        Err(_) => Told::Unread(Unread::Memory),
    }
}

/// Commits or prepares each of these transactions.
fn take_each<C: Commits>(
    alloc: Global,
    commits: &mut C,
    manner: Manner,
    transactions: Vec<Transaction>,
) -> Told
    ensures { IsToldOf C.commits manner commits.old (Each transactions) result commits.new }
{
    let count = transactions.len();
    let Ok(asked) = works_of(alloc, manner, transactions) else {
        return Told::Unread(Unread::Memory);
    };
    let mut outcomes = commits.commit(asked);
    match outcomes.resize(count, Outcome::Lost) {
        Ok(()) => Told::Each(outcomes),
        Err(_) => Told::One(Outcome::Lost),
    }
}

/// The work of doing that with these transactions.
fn works_of(
    alloc: Global,
    manner: Manner,
    transactions: Vec<Transaction>,
) -> Result<Vec<Work>, AllocError>
    ensures { IfOk result (λ works. works.items ≡ map (work_of manner) transactions.items) }
{
    let mut works = Vec::with_capacity(alloc, transactions.len())?;
    for transaction in transactions {
        works.push(manner.work_of(transaction))?;
    }
    Ok(works)
}

/// The first outcome. Lost if there is none.
pub(crate) fn first_of(outcomes: &[Outcome]) -> Outcome
    ensures { result ≡ first_of outcomes.now }
{
    match outcomes.split_first() {
        Some((first, _)) => *first,
        None => Outcome::Lost,
    }
}
