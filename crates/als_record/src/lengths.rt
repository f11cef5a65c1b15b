ghost use Rattle.std.specs.Prelude.{◌≡◌, ◌≤◌, length};
ghost use Rattle.als_record.specs.Spelling.{image_bytes, body_len, record_len};

use crate::image::Image;
use crate::limits::HEAD_LEN;
use crate::record::{Body, Record};

/// The bytes of an image's value, none where it is absent.
#[inline]
pub(crate) fn value_bytes(image: &Image) -> &[u8]
    ensures bytes { result.now ≡ image_bytes image.now }
    ensures limit { length result.now ≤ 31 }
{
    match image {
        None => &[],
        Some(value) => value.as_slice(),
    }
}

/// The length of a body in bytes.
#[inline]
fn encoded_body_len(body: &Body) -> usize
    ensures len { result ≡ body_len body.now }
    ensures limit { result ≤ 54532 }
{
    match body {
        Body::Update { before, after, .. } => {
            7 + value_bytes(before).len() + value_bytes(after).len()
        }
        Body::Compensation { after, .. } => 14 + value_bytes(after).len(),
        Body::Commit | Body::Rollback | Body::End | Body::BeginCheckpoint | Body::Prepare => 0,
        Body::EndCheckpoint {
            transactions,
            pages,
        } => 4 + 21 * transactions.as_slice().len() + 12 * pages.as_slice().len(),
    }
}

/// The length of a record in bytes, at most 54,560.
#[tactic(auto, unfolding(crate::specs::Spelling::record_len))]
pub fn encoded_len(logged: &Record) -> usize
    ensures len { result ≡ record_len logged.now }
    ensures limit { result ≤ 54560 }
{
    HEAD_LEN + encoded_body_len(&logged.body)
}
