ghost use Rattle.std.specs.Prelude.{◌≡◌, ◌≤◌, true, [], IfOk, IfErr};
ghost use Rattle.als_validator.specs.Validated.{IsValidatorOf, judges};
ghost use Rattle.als_store.specs.declared.fault.Fault.TheVariants as fault;

use crate::fault::Fault;
use als_log::NewLog;
use als_pool::NewPool;
use als_validator::Validator;
use std::alloc::Global;

/// What a new store has in memory. It is made before a device is touched.
#[derive(Drop)]
pub(crate) struct NewParts {
    pub(crate) log: NewLog,
    pub(crate) pool: NewPool,
    pub(crate) validator: Validator,
}

impl NewParts {
    /// The memory of an empty store of a database of so many pages, whose first lease gets this
    /// number. Memory: there was none.
    pub(crate) fn numbered(alloc: Global, pages: u32, first: u64) -> Result<NewParts, Fault>
        requires some { 1 ≤ pages }
        requires few { pages ≤ 4096 }
        ensures log { IfOk result (λ parts. parts.log ≡ pages) }
        ensures pool { IfOk result (λ parts. parts.pool
            ≡ record { pages = pages; first = first }) }
        ensures validator { IfOk result (λ parts. IsValidatorOf pages parts.validator []) }
        ensures judging { IfOk result (λ parts. judges parts.validator ≡ true) }
        ensures err { IfErr result (λ f. f ≡ fault.Memory) }
    {
        let log = new_log(alloc, pages)?;
        let pool = NewPool::numbered(alloc, pages, first)?;
        let validator = new_validator(alloc, pages)?;
        Ok(NewParts {
            log,
            pool,
            validator,
        })
    }
}

/// The memory of an empty log.
fn new_log(alloc: Global, pages: u32) -> Result<NewLog, Fault>
    requires { 1 ≤ pages × (pages ≤ 4096) }
    ensures ok { IfOk result (λ log. log ≡ pages) }
    ensures err { IfErr result (λ f. f ≡ fault.Memory) }
{
    match NewLog::new(alloc, pages) {
        Ok(log) => Ok(log),
        Err(_) => Err(Fault::Memory),
    }
}

/// A validator of an empty log.
fn new_validator(alloc: Global, pages: u32) -> Result<Validator, Fault>
    ensures ok { IfOk result (λ v. IsValidatorOf pages v []) }
    ensures judging { IfOk result (λ v. judges v ≡ true) }
    ensures err { IfErr result (λ f. f ≡ fault.Memory) }
{
    match Validator::new(alloc, pages) {
        Ok(validator) => Ok(validator),
        Err(_) => Err(Fault::Memory),
    }
}
