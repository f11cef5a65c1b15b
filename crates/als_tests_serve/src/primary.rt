use crate::asking::{Fixed, answered, gives, published};
use als_http::Answering;
use als_report::State;
use std::hash::RandomState;
use std::test::*;

/// What every node's status has, and behind it what a node has that takes commits.
const STATUS: &str =
    "HTTP/1.1 200 OK\r\ncontent-type: application/json\r\ncache-control: no-store\r\n\
    content-length: 525\r\n\r\n{\"state\":\"committing\",\"end\":108,\"acknowledged\":80,\"pending\":5,\
    \"leases\":1,\"commits\":1,\"seconds_since_last_frame\":2,\"capacity\":1024,\"left\":916,\"takeovers_left\":31,\"transactions_left\":4294967286,\
    \"transactions\":9,\"groups\":4,\"force_microseconds\":1500007,\"in_doubt\":3,\"sync\":1,\"new\":false,\"followers\":[\
    {\"address\":\"127.0.0.1\",\"acknowledged\":80,\"behind\":0,\"seconds_behind\":0,\
    \"connected\":70,\"counts\":true},\
    {\"address\":\"::1\",\"acknowledged\":52,\"behind\":28,\"seconds_behind\":7,\
    \"connected\":60,\"counts\":false}],\"refused\":6,\"last_refusal\":29}";

#[test]
fn a_primary_reports_its_followers(rt: HostRuntime) -> Result<(), Fail> {
    let alloc = rt.alloc();
    let keys = RandomState::new(&rt)?;
    let (log, mut readers) = published(&rt, alloc, 1).ok_or("memory")?;
    let reader = readers.pop().ok_or("a reader")?;
    let mut answering = Answering::new(alloc, reader, Fixed(State::Committing, None));
    let request = "GET /status HTTP/1.1\r\nHost: a\r\n\r\n";
    assert!(rt; gives(alloc, keys, &mut answering, request, STATUS));
    log.close(&rt);
    Ok(())
}

#[test]
fn a_primary_has_metrics_of_its_followers(rt: HostRuntime) -> Result<(), Fail> {
    let alloc = rt.alloc();
    let keys = RandomState::new(&rt)?;
    let (log, mut readers) = published(&rt, alloc, 1).ok_or("memory")?;
    let reader = readers.pop().ok_or("a reader")?;
    let mut answering = Answering::new(alloc, reader, Fixed(State::Unconfirmed, None));
    let request = b"GET /metrics HTTP/1.0\r\n\r\n";
    let found = answered(alloc, keys, &mut answering, request).ok_or("an answer")?;
    let text = String::from_utf8(found).ok().ok_or("text")?;
    for line in [
        "\nals_state{state=\"unconfirmed\"} 1\n",
        "\nals_info{version=\"0.2.0\",role=\"primary\",epoch=\"1\"} 1\n",
        "\n# TYPE als_transactions_total counter\nals_transactions_total 9\n",
        "\nals_groups_total 4\n",
        "\n# TYPE als_force_seconds_total counter\nals_force_seconds_total 1.500007\n",
        "\n# TYPE als_in_doubt gauge\nals_in_doubt 3\n",
        "\nals_sync_followers 1\n",
        "\n# TYPE als_refused_total counter\nals_refused_total 6\n",
        "\nals_last_refusal 29\n",
        "\nals_follower_connected_seconds{follower=\"127.0.0.1\",seat=\"0\"} 70\n",
        "\nals_follower_acknowledged_bytes{follower=\"::1\",seat=\"1\"} 52\n",
        "\nals_follower_behind_bytes{follower=\"127.0.0.1\",seat=\"0\"} 0\n",
        "\nals_follower_behind_bytes{follower=\"::1\",seat=\"1\"} 28\n",
        "\nals_follower_seconds_behind{follower=\"::1\",seat=\"1\"} 7\n",
    ] {
        assert!(rt; text.contains(line), "{line}");
    }
    log.close(&rt);
    Ok(())
}

#[test]
fn a_standby_has_no_metrics_of_commits(rt: HostRuntime) -> Result<(), Fail> {
    let alloc = rt.alloc();
    let keys = RandomState::new(&rt)?;
    let (log, mut readers) = published(&rt, alloc, 1).ok_or("memory")?;
    let reader = readers.pop().ok_or("a reader")?;
    let mut answering = Answering::new(alloc, reader, Fixed(State::Primary, None));
    let request = b"GET /metrics HTTP/1.0\r\n\r\n";
    let found = answered(alloc, keys, &mut answering, request).ok_or("an answer")?;
    let text = String::from_utf8(found).ok().ok_or("text")?;
    for name in [
        "als_transactions_total",
        "als_groups_total",
        "als_force",
        "als_in_doubt",
        "als_sync",
        "als_refused",
        "als_last_refusal",
        "als_follower",
    ] {
        assert!(rt; !text.contains(name), "{name}");
    }
    log.close(&rt);
    Ok(())
}
