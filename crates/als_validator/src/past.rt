ghost use Rattle.std.specs.Prelude.{◌≡◌, List};
ghost use Rattle.als_record.specs.declared.record.Record.{Record};
ghost use Rattle.als_analysis.specs.Noted.{IsTableOf};
ghost use Rattle.als_validator.specs.Lists.{AreSurvivorsOf};
ghost use Rattle.als_validator.specs.Seen.{IsPastOf};

use crate::survivors::Survivors;
use als_analysis::TransTable;
use als_record::{KeptUpdate, TransId, TransactionRow};

/// What the causes ask of a record's transaction: its row of the transaction table, and its newest
/// surviving update.
#[derive(Clone, Copy)]
pub(crate) struct Past<'a> {
    pub(crate) row: Option<TransactionRow>,
    pub(crate) newest: Option<&'a KeptUpdate>,
}

/// The past of a transaction.
pub(crate) fn past_of<'a>(table: &TransTable, survivors: &'a Survivors, trans: TransId) -> Past<'a>
    ensures { (log : List Record) → IsTableOf table.now log → AreSurvivorsOf survivors.now log
        → IsPastOf result log trans.0 }
{
    match table.place(trans) {
        Some(at) => Past {
            row: Some(table.rows()[at].row()),
            newest: survivors.at(at).last(),
        },
        None => Past {
            row: None,
            newest: None,
        },
    }
}
