ghost use Rattle.std.specs.Prelude.{◌≡◌, IfOk, OnOk, ◌++◌, ◌∷◌, [], codes, flat_map};
ghost use Rattle.std.specs.Net.Text.{ip_text};
ghost use Rattle.json.specs.Token.{begin_array, key};
ghost use Rattle.als_report.specs.Followers.{primary_tokens, work_tokens, followers_tokens};
ghost use Rattle.als_report.specs.Followers.{any_followers_tokens, counts_tokens, new_tokens};
ghost use Rattle.als_report.specs.Followers.{follower_tokens, place_tokens, lag_tokens, session_tokens};

use crate::follower::Follower;
use crate::members::number;
use crate::report::Report;
use crate::work::Work;
use als_record::Lsn;
use json::Writer;
use std::alloc::{AllocError, Global};
use std::net::IpAddr;

/// Writes what only a node that takes commits reports; of any other node its followers, if it has any.
#[tactic(auto, unfolding(crate::specs::Followers::primary_tokens))]
pub(crate) fn write_primary(
    alloc: Global,
    text: &mut Writer,
    report: &Report,
) -> Result<(), AllocError>
    ensures tokens { OnOk result
        (text.new.tokens ≡ text.old.tokens ++ primary_tokens report.now) }
    ensures before { OnOk result (text.new.before ≡ text.old.before) }
{
    if report.state.takes_commits() {
        write_work(text, &report.work)?;
        write_counts(text, report)?;
        write_followers(
            alloc,
            text,
            report.acknowledged,
            report.followers.as_slice(),
        )?;
    } else {
        write_any_followers(
            alloc,
            text,
            report.acknowledged,
            report.followers.as_slice(),
        )?;
    }
    Ok(())
}

/// Writes how many transactions are in doubt, how many followers a commit waits for, and whether nothing was
/// ever committed.
fn write_counts(text: &mut Writer, report: &Report) -> Result<(), AllocError>
    ensures tokens { OnOk result (text.new.tokens ≡ text.old.tokens ++ counts_tokens report.now) }
    ensures before { OnOk result (text.new.before ≡ text.old.before) }
{
    number(text, "in_doubt", report.in_doubt)?;
    number(text, "sync", report.sync)?;
    write_new(text, report)?;
    Ok(())
}

/// Writes whether nothing was ever committed.
fn write_new(text: &mut Writer, report: &Report) -> Result<(), AllocError>
    ensures tokens { OnOk result (text.new.tokens ≡ text.old.tokens ++ new_tokens report.now) }
    ensures before { OnOk result (text.new.before ≡ text.old.before) }
{
    text.key("new")?;
    text.boolean(report.is_new())?;
    Ok(())
}

/// Writes the followers, if there are any.
#[tactic(auto, unfolding(crate::specs::Followers::any_followers_tokens))]
fn write_any_followers(
    alloc: Global,
    text: &mut Writer,
    acknowledged: Lsn,
    followers: &[Follower],
) -> Result<(), AllocError>
    ensures tokens { OnOk result
        (text.new.tokens ≡ text.old.tokens ++ any_followers_tokens acknowledged.0 followers.now) }
    ensures before { OnOk result (text.new.before ≡ text.old.before) }
{
    if followers.len() == 0 {
        return Ok(());
    }
    write_followers(alloc, text, acknowledged, followers)?;
    Ok(())
}

/// Writes what it committed.
fn write_work(text: &mut Writer, work: &Work) -> Result<(), AllocError>
    ensures tokens { OnOk result (text.new.tokens ≡ text.old.tokens ++ work_tokens work.now) }
    ensures before { OnOk result (text.new.before ≡ text.old.before) }
{
    number(text, "transactions", work.transactions)?;
    number(text, "groups", work.groups)?;
    number(text, "force_microseconds", work.force_microseconds)?;
    Ok(())
}

/// Writes the followers of a log that is acknowledged up to there.
fn write_followers(
    alloc: Global,
    text: &mut Writer,
    acknowledged: Lsn,
    followers: &[Follower],
) -> Result<(), AllocError>
    ensures tokens { OnOk result
        (text.new.tokens ≡ text.old.tokens ++ followers_tokens acknowledged.0 followers.now) }
    ensures before { OnOk result (text.new.before ≡ text.old.before) }
{
    begin_followers(text)?;
    write_rows(alloc, text, acknowledged, followers)?;
    text.end_array()?;
    Ok(())
}

/// Writes the name of their array, and its opening bracket.
fn begin_followers(text: &mut Writer) -> Result<(), AllocError>
    ensures tokens { OnOk result
        (text.new.tokens ≡ text.old.tokens ++ key (codes "followers") ∷ begin_array ∷ []) }
    ensures before { OnOk result (text.new.before ≡ text.old.before) }
{
    text.key("followers")?;
    text.begin_array()?;
    Ok(())
}

/// Writes an object for each follower.
fn write_rows(
    alloc: Global,
    text: &mut Writer,
    acknowledged: Lsn,
    followers: &[Follower],
) -> Result<(), AllocError>
    ensures tokens { OnOk result
        (text.new.tokens ≡ text.old.tokens ++ flat_map (follower_tokens acknowledged.0) followers.now) }
    ensures before { OnOk result (text.new.before ≡ text.old.before) }
{
    for i in 0..followers.len() {
        write_follower(alloc, text, acknowledged, &followers[i])?;
    }
    Ok(())
}

/// Writes the object of a follower.
fn write_follower(
    alloc: Global,
    text: &mut Writer,
    acknowledged: Lsn,
    follower: &Follower,
) -> Result<(), AllocError>
    ensures tokens { OnOk result
        (text.new.tokens ≡ text.old.tokens ++ follower_tokens acknowledged.0 follower.now) }
    ensures before { OnOk result (text.new.before ≡ text.old.before) }
{
    text.begin_object()?;
    write_place(alloc, text, follower)?;
    write_lag(text, acknowledged, follower)?;
    write_session(text, follower)?;
    text.end_object()?;
    Ok(())
}

/// Writes where a follower connected from, and what it acknowledged.
fn write_place(alloc: Global, text: &mut Writer, follower: &Follower) -> Result<(), AllocError>
    ensures tokens { OnOk result (text.new.tokens ≡ text.old.tokens ++ place_tokens follower.now) }
    ensures before { OnOk result (text.new.before ≡ text.old.before) }
{
    let peer = address_text(alloc, &follower.peer)?;
    text.key("address")?;
    text.string(peer.as_str())?;
    text.key("acknowledged")?;
    text.u64(follower.acknowledged.0)?;
    Ok(())
}

/// The text of an address.
fn address_text(alloc: Global, peer: &IpAddr) -> Result<String, AllocError>
    ensures { IfOk result (λ text. text.bytes.items ≡ ip_text peer.now) }
{
    format!(in alloc; "{peer}")
}

/// Writes how far a follower is behind.
fn write_lag(text: &mut Writer, acknowledged: Lsn, follower: &Follower) -> Result<(), AllocError>
    ensures tokens { OnOk result
        (text.new.tokens ≡ text.old.tokens ++ lag_tokens acknowledged.0 follower.now) }
    ensures before { OnOk result (text.new.before ≡ text.old.before) }
{
    number(text, "behind", follower.behind(acknowledged))?;
    number(
        text,
        "seconds_behind",
        follower.seconds_behind(acknowledged),
    )?;
    Ok(())
}

/// Writes for how long a follower is connected, and whether it counts.
fn write_session(text: &mut Writer, follower: &Follower) -> Result<(), AllocError>
    ensures tokens { OnOk result (text.new.tokens ≡ text.old.tokens ++ session_tokens follower.now) }
    ensures before { OnOk result (text.new.before ≡ text.old.before) }
{
    text.key("connected")?;
    text.u64(follower.age)?;
    text.key("counts")?;
    text.boolean(follower.counts)?;
    Ok(())
}
