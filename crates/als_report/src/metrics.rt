use crate::primary_metrics::write_primary;
use crate::report::Report;
use std::alloc::{AllocError, Global};

/// The version of the program.
pub const VERSION: &str = "0.2.0";

/// Writes the HELP and TYPE lines of a metric.
pub(crate) fn head(
    text: &mut String,
    name: &str,
    help: &str,
    kind: &str,
) -> Result<(), AllocError> {
    text.push_str("# HELP ")?;
    text.push_str(name)?;
    text.push_str(" ")?;
    text.push_str(help)?;
    text.push_str("\n# TYPE ")?;
    text.push_str(name)?;
    text.push_str(" ")?;
    text.push_str(kind)?;
    text.push_str("\n")
}

/// Writes a gauge: its HELP and TYPE lines and its value.
fn metric(text: &mut String, name: &str, help: &str, value: u64) -> Result<(), AllocError> {
    head(text, name, help, "gauge")?;
    write!(text, "{name} {value}\n")
}

/// Writes a gauge, or nothing if the value is not known.
pub(crate) fn known(
    text: &mut String,
    name: &str,
    help: &str,
    value: Option<u64>,
) -> Result<(), AllocError> {
    match value {
        Some(value) => metric(text, name, help, value),
        None => Ok(()),
    }
}

/// A report and the number of published commits in Prometheus's text format. A number that is not known
/// has no line.
pub fn metrics_text(
    alloc: Global,
    report: &Report,
    commits: Option<u64>,
) -> Result<Vec<u8>, AllocError> {
    let mut text = String::new(alloc);
    write_info(&mut text, report)?;
    write_log(&mut text, report)?;
    write_redo(&mut text, report, commits)?;
    write_session(&mut text, report)?;
    write_primary(&mut text, report)?;
    Ok(text.into_bytes())
}

/// Writes the state, and the version, role and epoch.
fn write_info(text: &mut String, report: &Report) -> Result<(), AllocError> {
    let state = report.state.name();
    head(text, "als_state", "What the standby does.", "gauge")?;
    write!(text, "als_state{{state=\"{state}\"}} 1\n")?;
    let role = report.state.role();
    head(
        text,
        "als_info",
        "Which program it is, and what of the node.",
        "gauge",
    )?;
    write!(text, "als_info{{version=\"{VERSION}\",role=\"{role}\"")?;
    if let Some(epoch) = report.epoch {
        write!(text, ",epoch=\"{epoch}\"")?;
    }
    text.push_str("} 1\n")
}

/// Writes how long the log is, how much room it has, and how many takeovers and
/// transactions are left.
fn write_log(text: &mut String, report: &Report) -> Result<(), AllocError> {
    metric(
        text,
        "als_end_bytes",
        "Offset after the last held record.",
        report.end.0,
    )?;
    metric(
        text,
        "als_acknowledged_bytes",
        "Offset below which no log byte can be lost.",
        report.acknowledged.0,
    )?;
    known(
        text,
        "als_log_capacity_bytes",
        "Bytes that the log takes at most.",
        report.capacity,
    )?;
    known(
        text,
        "als_log_left_bytes",
        "Bytes that the log still takes.",
        report.room(),
    )?;
    known(
        text,
        "als_takeovers_left",
        "Takeovers that the history can still have.",
        report.takeovers_left(),
    )?;
    known(
        text,
        "als_transactions_left",
        "Transactions that the log can still have.",
        report.transactions_left(),
    )
}

/// Writes what waits for redo, and what is published.
fn write_redo(text: &mut String, report: &Report, commits: Option<u64>) -> Result<(), AllocError> {
    metric(
        text,
        "als_pending_changes",
        "Changes that wait for redo.",
        report.pending,
    )?;
    metric(text, "als_leases", "Leases that are out.", report.leases)?;
    metric(
        text,
        "als_warming",
        "Whether no list of commits is published yet.",
        u64::from(commits.is_none()),
    )?;
    known(text, "als_commits", "Published commits.", commits)
}

/// Writes how its sessions go.
fn write_session(text: &mut String, report: &Report) -> Result<(), AllocError> {
    known(
        text,
        "als_seconds_since_last_frame",
        "Seconds since the last frame of a primary that was acknowledged.",
        report.silence,
    )?;
    known(
        text,
        "als_seconds_unacknowledged",
        "Seconds for which a frame waits for its acknowledgement.",
        report.waiting,
    )?;
    head(
        text,
        "als_session_failures_total",
        "Sessions that a fault has ended.",
        "counter",
    )?;
    let failures = report.failures;
    write!(text, "als_session_failures_total {failures}\n")?;
    known(
        text,
        "als_session_last_fault",
        "Number of the last such fault.",
        report.last_fault,
    )
}
