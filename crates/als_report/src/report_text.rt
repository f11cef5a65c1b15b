ghost use Rattle.std.specs.Prelude.{◌≡◌, IfOk, OnOk, ◌++◌};
ghost use Rattle.json.specs.Print.{print};
ghost use Rattle.als_report.specs.Texts.{status_tokens, log_tokens, redo_tokens, room_tokens};
ghost use Rattle.als_report.specs.Texts.{health_tokens, primary_flag_tokens, standby_flag_tokens};
ghost use Rattle.als_report.specs.Texts.{flag_tokens, refusal_tokens, refused_tokens};

use crate::members::{member, number};
use crate::primary_text::write_primary;
use crate::refusals::Refusals;
use crate::report::Report;
use json::Writer;
use std::alloc::{AllocError, Global};

/// The status of a node as JSON: its report, and how many commits are published.
#[tactic(auto, using(crate::proofs::TextLaws::printed))]
pub fn status_text(
    alloc: Global,
    report: &Report,
    commits: Option<u64>,
) -> Result<Vec<u8>, AllocError>
    ensures { IfOk result (λ text. text.items ≡ print (status_tokens report.now commits)) }
{
    let mut text = Writer::new(Vec::new(alloc));
    write_status(alloc, &mut text, report, commits)?;
    Ok(text.into_inner())
}

/// Writes the object of a status.
fn write_status(
    alloc: Global,
    text: &mut Writer,
    report: &Report,
    commits: Option<u64>,
) -> Result<(), AllocError>
    ensures tokens { OnOk result
        (text.new.tokens ≡ text.old.tokens ++ status_tokens report.now commits) }
    ensures before { OnOk result (text.new.before ≡ text.old.before) }
{
    text.begin_object()?;
    write_log(text, report)?;
    write_redo(text, report, commits)?;
    write_room(text, report)?;
    write_primary(alloc, text, report)?;
    write_refusals(text, report)?;
    text.end_object()?;
    Ok(())
}

/// Writes the state, and how far the log goes.
fn write_log(text: &mut Writer, report: &Report) -> Result<(), AllocError>
    ensures tokens { OnOk result (text.new.tokens ≡ text.old.tokens ++ log_tokens report.now) }
    ensures before { OnOk result (text.new.before ≡ text.old.before) }
{
    text.key("state")?;
    text.string(report.state.name())?;
    member(text, "end", Some(report.end.0))?;
    member(text, "acknowledged", Some(report.acknowledged.0))?;
    Ok(())
}

/// Writes what waits, what is published, and how old the last frame is.
fn write_redo(text: &mut Writer, report: &Report, commits: Option<u64>) -> Result<(), AllocError>
    ensures tokens { OnOk result
        (text.new.tokens ≡ text.old.tokens ++ redo_tokens report.now commits) }
    ensures before { OnOk result (text.new.before ≡ text.old.before) }
{
    member(text, "pending", Some(report.pending))?;
    member(text, "leases", Some(report.leases))?;
    member(text, "commits", commits)?;
    member(text, "seconds_since_last_frame", report.silence)?;
    Ok(())
}

/// Writes the size of the log's device, how much of it is left, and how many takeovers and
/// transactions.
fn write_room(text: &mut Writer, report: &Report) -> Result<(), AllocError>
    ensures tokens { OnOk result (text.new.tokens ≡ text.old.tokens ++ room_tokens report.now) }
    ensures before { OnOk result (text.new.before ≡ text.old.before) }
{
    member(text, "capacity", report.capacity)?;
    member(text, "left", report.room())?;
    member(text, "takeovers_left", report.takeovers_left())?;
    member(text, "transactions_left", report.transactions_left())?;
    Ok(())
}

/// Writes what a node that takes commits refused; of any other node nothing.
#[tactic(auto, unfolding(crate::specs::Texts::refusal_tokens))]
fn write_refusals(text: &mut Writer, report: &Report) -> Result<(), AllocError>
    ensures tokens { OnOk result (text.new.tokens ≡ text.old.tokens ++ refusal_tokens report.now) }
    ensures before { OnOk result (text.new.before ≡ text.old.before) }
{
    if !report.state.takes_commits() {
        return Ok(());
    }
    write_refused(text, &report.refusals)?;
    Ok(())
}

/// Writes how many were refused, and the number of the last refusal.
fn write_refused(text: &mut Writer, refusals: &Refusals) -> Result<(), AllocError>
    ensures tokens { OnOk result
        (text.new.tokens ≡ text.old.tokens ++ refused_tokens refusals.now) }
    ensures before { OnOk result (text.new.before ≡ text.old.before) }
{
    number(text, "refused", refusals.count)?;
    member(text, "last_refusal", refusals.last)?;
    Ok(())
}

/// Whether a node is healthy, as JSON.
pub fn health_text(alloc: Global, healthy: bool) -> Result<Vec<u8>, AllocError>
    ensures { IfOk result (λ text. text.items ≡ print (health_tokens healthy)) }
{
    flag_text(alloc, "healthy", healthy)
}

/// Whether clients may send a node commits, as JSON.
pub fn primary_flag_text(alloc: Global, is_primary: bool) -> Result<Vec<u8>, AllocError>
    ensures { IfOk result (λ text. text.items ≡ print (primary_flag_tokens is_primary)) }
{
    flag_text(alloc, "primary", is_primary)
}

/// Whether a node is a healthy standby, as JSON.
pub fn standby_flag_text(alloc: Global, is_standby: bool) -> Result<Vec<u8>, AllocError>
    ensures { IfOk result (λ text. text.items ≡ print (standby_flag_tokens is_standby)) }
{
    flag_text(alloc, "standby", is_standby)
}

/// An object of one member, which is true or false.
#[tactic(auto, using(crate::proofs::TextLaws::printed))]
fn flag_text(alloc: Global, name: &str, flag: bool) -> Result<Vec<u8>, AllocError>
    ensures { IfOk result (λ text. text.items ≡ print (flag_tokens name.now flag)) }
{
    let mut text = Writer::new(Vec::new(alloc));
    write_flag(&mut text, name, flag)?;
    Ok(text.into_inner())
}

fn write_flag(text: &mut Writer, name: &str, flag: bool) -> Result<(), AllocError>
    ensures tokens { OnOk result (text.new.tokens ≡ text.old.tokens ++ flag_tokens name.now flag) }
    ensures before { OnOk result (text.new.before ≡ text.old.before) }
{
    text.begin_object()?;
    text.key(name)?;
    text.boolean(flag)?;
    text.end_object()?;
    Ok(())
}
