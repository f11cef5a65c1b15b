//! Tests of the store, and of what reads stopped devices and takes them up again. They use public
//! names alone.
#![tactic(auto)]

// Logs as bytes.
#[cfg(test)]
mod logs;
// als_reopen.
#[cfg(test)]
mod reopen;
// als_scan.
#[cfg(test)]
mod scan;
// als_store.
#[cfg(test)]
mod store;
