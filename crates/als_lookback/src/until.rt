use als_record::Lsn;

/// Up to where a log is looked at.
#[derive(Clone, Copy, Debug, PartialEq, Eq)]
pub enum Until {
    /// To its end, which has to be that of a record.
    End,
    /// Up to the last record that ends at or below this LSN, which is not past the log's end.
    At(Lsn),
}
