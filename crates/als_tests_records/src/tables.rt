use als_record::{Body, Lsn, Record, TransId};
use als_tables::CommitCount;

/// The log has one record, a commit.
#[test]
fn a_commit_is_counted(rt: HostRuntime) {
    let mut count = CommitCount::new();
    let commit = Record {
        lsn: Lsn(16),
        prev: Lsn(0),
        trans: TransId(1),
        body: Body::Commit,
    };
    count.note(&commit.view());
    assert!(rt; (count.records, count.commits, count.last_commit) == (1, 1, Lsn(16)));
}
