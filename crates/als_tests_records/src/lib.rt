//! Tests of records, and of what reads and judges them. They use public names alone.
#![tactic(auto)]

#[cfg(test)]
mod analysis;
#[cfg(test)]
mod commits;
#[cfg(test)]
mod made;
#[cfg(test)]
mod receiver;
#[cfg(test)]
mod record;
#[cfg(test)]
mod tables;
#[cfg(test)]
mod takeover;
#[cfg(test)]
mod validator;
