ghost use Rattle.std.specs.Prelude.{◌≡◌, ℕ, ◌+◌, ◌<◌, ◌^◌, List, [], ◌∷◌, ◌++◌, true, false, IsTrue, OnOk};
ghost use Rattle.als_record.specs.declared.record.Record.{Record as AnyRecord};
ghost use Rattle.als_record.specs.Spelling.{body_len, spelling};
ghost use Rattle.als_record.specs.LogText.{end_of};
ghost use Rattle.als_record.specs.Transactions.{is_transactional, is_end};
ghost use Rattle.als_record.specs.Validity.{is_valid};
ghost use Rattle.als_writing.specs.Writing.{Move, body_for, record_for, is_new};
ghost use Rattle.als_writing.specs.Placing.{IsPlaceOf};

use als_record::{Body, Fault, Lsn, Record, TransId, encode, encoded_len};

/// Where a transaction's next record stands behind a log.
#[derive(Clone, Copy)]
pub struct Place {
    /// The log's end.
    pub end: Lsn,
    /// The transaction's last record, 0 before the first.
    pub prev: Lsn,
    pub trans: TransId,
}

impl Place {
    /// The place of a new transaction's first record.
    pub fn first(end: Lsn, trans: TransId) -> Place
        ensures place { (log : List AnyRecord) → IsTrue (is_valid log) → end.0 ≡ end_of log
            → IsTrue (is_new log trans.0) → IsPlaceOf result log }
        ensures end { result.end ≡ end }
        ensures trans { result.trans ≡ trans }
    {
        Place {
            end,
            prev: Lsn(0),
            trans,
        }
    }

    /// The record that says this, at the place. The place is then behind it.
    #[tactic(auto, unfolding(als_record::specs::Spelling::record_len))]
    fn put(&mut self, body: Body) -> Record
        requires room { self.old.end.0 + 28 + body_len body < 2 ^ 64 }
        ensures made { (log : List AnyRecord) → (move : Move) → IsPlaceOf self.old log
            → body ≡ body_for log move → result ≡ record_for log self.old.trans.0 move }
        ensures goes_on { (log : List AnyRecord) → IsPlaceOf self.old log
            → is_transactional body ≡ true → is_end body ≡ false
            → IsPlaceOf self.new (log ++ result ∷ []) }
        ensures trans { self.new.trans ≡ self.old.trans }
        ensures end { self.new.end.0 ≡ self.old.end.0 + 28 + body_len body }
    {
        let made = Record {
            lsn: self.end,
            prev: self.prev,
            trans: self.trans,
            body,
        };
        self.prev = self.end;
        self.end = Lsn(self.end.0 + encoded_len(&made) as u64);
        made
    }

    /// Spells the record that says this behind a piece. The place is then behind the record.
    pub fn spell(&mut self, body: Body, piece: &mut Vec<u8>) -> Result<(), Fault>
        requires room { self.old.end.0 + 28 + body_len body < 2 ^ 64 }
        ensures spelled { (log : List AnyRecord) → (move : Move) → IsPlaceOf self.old log
            → body ≡ body_for log move → OnOk result (piece.new.items
            ≡ piece.old.items ++ spelling (record_for log self.old.trans.0 move)) }
        ensures goes_on { (log : List AnyRecord) → (move : Move) → IsPlaceOf self.old log
            → body ≡ body_for log move → is_transactional body ≡ true → is_end body ≡ false
            → IsPlaceOf self.new (log ++ record_for log self.old.trans.0 move ∷ []) }
        ensures trans { self.new.trans ≡ self.old.trans }
        ensures end { self.new.end.0 ≡ self.old.end.0 + 28 + body_len body }
    {
        let made = self.put(body);
        encode(&made, piece)
    }
}
