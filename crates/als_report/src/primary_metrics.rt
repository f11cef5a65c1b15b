use crate::follower::Follower;
use crate::metrics::{head, known};
use crate::refusals::Refusals;
use crate::report::Report;
use crate::work::Work;
use std::alloc::AllocError;

/// The microseconds of a second.
const SECOND: u64 = 1_000_000;

/// Writes what only a node that takes commits reports; of any other node its followers, if it has any.
pub(crate) fn write_primary(text: &mut String, report: &Report) -> Result<(), AllocError> {
    if !report.state.takes_commits() {
        if report.followers.is_empty() {
            return Ok(());
        }
        return write_followers(text, report);
    }
    write_work(text, &report.work)?;
    let in_doubt = report.in_doubt;
    head(
        text,
        "als_in_doubt",
        "Transactions that are prepared and not decided.",
        "gauge",
    )?;
    write!(text, "als_in_doubt {in_doubt}\n")?;
    let sync = report.sync;
    head(
        text,
        "als_sync_followers",
        "Followers that have to acknowledge a commit before it is answered.",
        "gauge",
    )?;
    write!(text, "als_sync_followers {sync}\n")?;
    write_followers(text, report)?;
    write_refusals(text, &report.refusals)
}

/// Writes the four figures of each follower.
fn write_followers(text: &mut String, report: &Report) -> Result<(), AllocError> {
    write_figure(text, report, Figure::Connected)?;
    write_figure(text, report, Figure::Acknowledged)?;
    write_figure(text, report, Figure::Behind)?;
    write_figure(text, report, Figure::SecondsBehind)
}

/// Writes what it committed.
fn write_work(text: &mut String, work: &Work) -> Result<(), AllocError> {
    counter(
        text,
        "als_transactions_total",
        "Transactions of clients that were answered as committed.",
        work.transactions,
    )?;
    counter(
        text,
        "als_groups_total",
        "Groups that were answered, also of refusals alone.",
        work.groups,
    )?;
    head(
        text,
        "als_force_seconds_total",
        "Seconds from a group's last transaction to its first answer, confirmation included.",
        "counter",
    )?;
    let seconds = work.force_microseconds / SECOND;
    let micros = work.force_microseconds % SECOND;
    write!(text, "als_force_seconds_total {seconds}.{micros:06}\n")
}

/// Writes what it refused.
fn write_refusals(text: &mut String, refusals: &Refusals) -> Result<(), AllocError> {
    counter(
        text,
        "als_refused_total",
        "Transactions and decisions of clients that were refused.",
        refusals.count,
    )?;
    known(
        text,
        "als_last_refusal",
        "Number of the last refusal that has one.",
        refusals.last,
    )
}

/// Writes a counter: a number that only grows.
fn counter(text: &mut String, name: &str, help: &str, value: u64) -> Result<(), AllocError> {
    head(text, name, help, "counter")?;
    write!(text, "{name} {value}\n")
}

/// A figure of a follower.
#[derive(Clone, Copy)]
enum Figure {
    Connected,
    Acknowledged,
    Behind,
    SecondsBehind,
}

impl Figure {
    fn name(self) -> &'static str {
        match self {
            Figure::Connected => "als_follower_connected_seconds",
            Figure::Acknowledged => "als_follower_acknowledged_bytes",
            Figure::Behind => "als_follower_behind_bytes",
            Figure::SecondsBehind => "als_follower_seconds_behind",
        }
    }

    fn help(self) -> &'static str {
        match self {
            Figure::Connected => "Seconds since a follower connected.",
            Figure::Acknowledged => "Offset below which a follower has the log.",
            Figure::Behind => "Bytes of the acknowledged log that a follower lacks.",
            Figure::SecondsBehind => {
                "Seconds for which a follower that lacks some acknowledged nothing."
            }
        }
    }

    fn of(self, report: &Report, follower: &Follower) -> u64 {
        match self {
            Figure::Connected => follower.age,
            Figure::Acknowledged => follower.acknowledged.0,
            Figure::Behind => follower.behind(report.acknowledged),
            Figure::SecondsBehind => follower.seconds_behind(report.acknowledged),
        }
    }
}

/// Writes a figure of each follower. Two followers with one address have different seats.
fn write_figure(text: &mut String, report: &Report, figure: Figure) -> Result<(), AllocError> {
    let name = figure.name();
    head(text, name, figure.help(), "gauge")?;
    let followers = report.followers.as_slice();
    for seat in 0..followers.len() {
        let follower = &followers[seat];
        let peer = follower.peer;
        let value = figure.of(report, follower);
        write!(
            text,
            "{name}{{follower=\"{peer}\",seat=\"{seat}\"}} {value}\n"
        )?;
    }
    Ok(())
}
