ghost use Rattle.std.specs.Prelude.{◌≡◌, ◌≤◌, ◌↔◌, ◌<◌, IsTrue, true, false, take, length, List};
ghost use Rattle.als_quorum.specs.Enough.{AreVouchers, HasEnough, IsVouched, Vouches};
ghost use Rattle.als_quorum.specs.Names.{name_of};
ghost use Rattle.als_quorum.specs.declared.row.Row.{Row as AnyRow};

use crate::name::Name;
use crate::row::Row;
use crate::wanted::Wanted;
use als_callers::Allowed;

/// How many followers of different names, at addresses that count, have acknowledged what is wanted.
pub(crate) fn count_names(rows: &[Option<Row>], allowed: &Allowed, wanted: Wanted) -> usize
    // That many rows can be chosen, and never more.
    ensures some { HasEnough allowed.now.blocks.items rows.now result wanted }
    ensures most { (chosen : List AnyRow)
        → AreVouchers allowed.now.blocks.items rows.now wanted chosen → length chosen ≤ result }
{
    let mut count: usize = 0;
    for (at, row) in rows.iter().enumerate() {
        if is_first(rows, allowed, at, row, wanted) {
            count += 1;
        }
    }
    count
}

/// Whether a row vouches, and no earlier row of its name does.
fn is_first(
    rows: &[Option<Row>],
    allowed: &Allowed,
    at: usize,
    row: &Option<Row>,
    wanted: Wanted,
) -> bool
    requires { at < length rows.now }
    ensures first { result ≡ true → (own : AnyRow) × (row.now ≡ Some own)
        × Vouches allowed.now.blocks.items wanted own
        × ¬ (IsVouched allowed.now.blocks.items (take at rows.now) wanted (name_of own)) }
    ensures other { result ≡ false → (own : AnyRow) → row.now ≡ Some own
        → Vouches allowed.now.blocks.items wanted own
        → IsVouched allowed.now.blocks.items (take at rows.now) wanted (name_of own) }
{
    match row {
        Some(own) => own.vouches(allowed, wanted)
            && !is_vouched(&rows[..at], allowed, own.name(), wanted),
        None => false,
    }
}

/// Whether a row of this name vouches.
fn is_vouched(rows: &[Option<Row>], allowed: &Allowed, name: Name, wanted: Wanted) -> bool
    ensures { IsTrue result ↔ IsVouched allowed.now.blocks.items rows.now wanted name }
{
    for row in rows {
        if is_voucher(row, allowed, name, wanted) {
            return true;
        }
    }
    false
}

/// Whether a row has this name and vouches.
fn is_voucher(row: &Option<Row>, allowed: &Allowed, name: Name, wanted: Wanted) -> bool
    ensures { IsTrue result ↔ ((own : AnyRow) × (row.now ≡ Some own)
        × Vouches allowed.now.blocks.items wanted own × (name_of own ≡ name)) }
{
    match row {
        Some(own) => own.vouches(allowed, wanted) && own.name().is(name),
        None => false,
    }
}
