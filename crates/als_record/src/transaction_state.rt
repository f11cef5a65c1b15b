/// What a transaction that has not ended is doing, as ARIES' transaction table has it.
#[derive(Clone, Copy, Debug, PartialEq, Eq)]
pub enum TransactionState {
    /// It has written no commit, rollback or prepare record.
    Active,
    /// Its commit record is in the log, its end record is not.
    Committed,
    /// Its rollback record is in the log: it only compensates now.
    RollingBack,
    /// Its prepare record is in the log, and neither a commit nor a rollback record is: it is in
    /// doubt, and a decision of its coordinator is awaited.
    Prepared,
}
