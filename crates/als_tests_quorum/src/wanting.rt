use als_quorum::Wanted;
use als_record::Lsn;

/// The log up to there, whatever the round.
pub fn up_to(lsn: u64) -> Wanted {
    Wanted {
        lsn: Lsn(lsn),
        round: 0,
    }
}
