ghost use Rattle.std.specs.Prelude.{◌≡◌, ◌≢◌, ◌+◌, ◌≤◌, length, take, drop, IfErr, Ok, Err};
ghost use Rattle.als_record.specs.declared.fault.Fault.TheVariants.{Memory};
ghost use Rattle.als_record.specs.Reading.{Gives, image_of, read_update, read_compensation};
ghost use Rattle.als_record.specs.Reading.{read_checkpoint, is_key};
ghost use Rattle.als_record.specs.Shown.{shown_image, shown_body};

use crate::fault::Fault;
use crate::fields::{half, is_length, key, long, value_len};
use crate::image_view::ImageView;
use crate::key::Key;
use crate::limits::SLOT_COUNT;
use crate::lsn::Lsn;
use crate::record_view::BodyView;
use crate::rows::{PageRows, TransactionRows};
use crate::rows_view::{RowsView, SpelledRows};

/// Is it a key of a database of `pages` pages?
#[inline]
fn is_in_range(pages: u32, key: Key) -> bool
    ensures { result ≡ is_key pages key }
{
    key.page < pages && (key.slot as usize) < SLOT_COUNT
}

/// The image of a length byte and the value's bytes.
#[inline(always)]
fn image<'a>(byte: u8, bytes: &'a [u8]) -> ImageView<'a>
    requires { length bytes.now ≤ 31 }
    ensures { shown_image result ≡ image_of byte bytes.now }
{
    if byte == 255 {
        return ImageView { bytes: None };
    }
    ImageView { bytes: Some(bytes) }
}

/// The body of an update.
#[inline(always)]
#[tactic(auto, unfolding(crate::specs::Reading::read_update))]
pub(crate) fn update<'a>(pages: u32, body: &'a [u8]) -> Result<BodyView<'a>, Fault>
    requires { 7 ≤ length body.now }
    ensures read { Gives shown_body result (read_update pages body.now) }
    ensures no_memory { IfErr result (λ e. e ≢ Memory) }
{
    let key = key(body, 0);
    if !is_in_range(pages, key) {
        return Err(Fault::BadKey);
    }
    let before = body[5];
    let after = body[6];
    if !(is_length(before) && is_length(after)) {
        return Err(Fault::BadValue);
    }
    if body.len() != 7 + value_len(before) + value_len(after) {
        return Err(Fault::BadLength);
    }
    let (_, images) = body.split_at(7);
    let (old, new) = images.split_at(value_len(before));
    Ok(BodyView::Update {
        key,
        before: image(before, old),
        after: image(after, new),
    })
}

/// The body of a compensation.
#[inline(always)]
#[tactic(auto, unfolding(crate::specs::Reading::read_compensation))]
pub(crate) fn compensation<'a>(pages: u32, body: &'a [u8]) -> Result<BodyView<'a>, Fault>
    requires { 14 ≤ length body.now }
    ensures read { Gives shown_body result (read_compensation pages body.now) }
    ensures no_memory { IfErr result (λ e. e ≢ Memory) }
{
    let key = key(body, 8);
    if !is_in_range(pages, key) {
        return Err(Fault::BadKey);
    }
    let after = body[13];
    if !is_length(after) {
        return Err(Fault::BadValue);
    }
    if body.len() != 14 + value_len(after) {
        return Err(Fault::BadLength);
    }
    let (_, value) = body.split_at(14);
    Ok(BodyView::Compensation {
        undo_next: Lsn(long(body, 0)),
        key,
        after: image(after, value),
    })
}

/// The body of an end_chkpt.
#[inline(always)]
#[tactic(auto, unfolding(crate::specs::Reading::read_checkpoint))]
pub(crate) fn checkpoint<'a>(body: &'a [u8]) -> Result<BodyView<'a>, Fault>
    requires { 4 ≤ length body.now }
    ensures read { Gives shown_body result (read_checkpoint body.now) }
    ensures no_memory { IfErr result (λ e. e ≢ Memory) }
{
    let transactions = half(body, 0) as usize;
    let pages = half(body, 2) as usize;
    let is_limited = transactions <= TransactionRows::LIMIT && pages <= PageRows::LIMIT;
    if !(is_limited && body.len() == 4 + 21 * transactions + 12 * pages) {
        return Err(Fault::BadLength);
    }
    Ok(BodyView::EndCheckpoint {
        rows: RowsView::Spelled {
            rows: SpelledRows { bytes: body },
        },
    })
}
