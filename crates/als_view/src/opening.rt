// How a view begins.
ghost use Rattle.std.specs.Prelude.{◌≡◌, ◌<◌, ◌^◌, [], Some, None, All, length, IfOk};
ghost use Rattle.std.specs.Prelude.{if◌then◌else◌};
ghost use Rattle.als_view.specs.Views.{pages_by, all_by, published_by, IsSameView, IsNewReader};

use crate::front::Front;
use crate::history::Token;
use crate::publisher::Publisher;
use crate::reader::Reader;
use crate::rule::{CopyWriter, Sees};
use crate::view_copy::ViewCopy;
use logbook::{Start, Word};
use std::alloc::{AllocError, Global};
use std::collections::VecDeque;
use std::sync::Wait;

/// A publisher with no commit.
fn publisher<R: Wait>(
    alloc: Global,
    rt: &R,
    pages: u32,
    readers: usize,
    listed: bool,
) -> Result<Publisher, AllocError>
    requires { (0 < readers) × (readers < 2 ^ 32) }
    ensures { IfOk result (λ p. (all_by p ≡ []) × (pages_by p ≡ pages)
        × (published_by p ≡ (if listed then Some [] else None))) }
{
    let (seen, mut pen, _second) = Token::open(Start::alone(), 0, 0);
    let head = Word::tracked(0, &mut pen);
    let first = ViewCopy::new(alloc, pages, listed, &seen)?;
    let second = ViewCopy::new(alloc, pages, listed, &seen)?;
    let writer = CopyWriter::new(alloc, first, second, readers)?;
    let (writer, turned) = writer.publish_as::<Sees, R>(rt);
    if turned.is_err() {
        writer.take(rt);
        return Err(AllocError);
    }
    Ok(Publisher {
        writer,
        queue: VecDeque::new(alloc),
        head,
        front: Front {
            listed: 1,
            count: 0,
            seen,
        },
    })
}

/// So many readers of the publisher's view.
fn fill(alloc: Global, publisher: &mut Publisher, readers: usize) -> Result<Vec<Reader>, AllocError>
    ensures same { IsSameView publisher.old publisher.new }
    ensures all { all_by publisher.new ≡ all_by publisher.old }
    ensures published { published_by publisher.new ≡ published_by publisher.old }
    ensures readers { IfOk result (λ v. All (IsNewReader publisher.old) v.items) }
    ensures count { IfOk result (λ v. length v.items ≡ readers) }
{
    let mut all = Vec::with_capacity(alloc, readers)?;
    for _ in 0..readers {
        all.push(publisher.reader()?)?;
    }
    Ok(all)
}

/// The view of a database with so many pages, with an empty list or with none, and so many readers
/// of it. All memory of the readers is taken here. Where allocation fails nothing is left behind.
pub fn new<R: Wait>(
    alloc: Global,
    rt: &R,
    pages: u32,
    readers: usize,
    listed: bool,
) -> Result<(Publisher, Vec<Reader>), AllocError>
    requires { (0 < readers) × (readers < 2 ^ 32) }
    ensures publisher { IfOk result (λ t. (all_by t.0 ≡ []) × (pages_by t.0 ≡ pages)
        × (published_by t.0 ≡ (if listed then Some [] else None))) }
    ensures readers { IfOk result (λ t. All (IsNewReader t.0) t.1.items) }
    ensures count { IfOk result (λ t. length t.1.items ≡ readers) }
{
    let mut publisher = publisher(alloc, rt, pages, readers, listed)?;
    match fill(alloc, &mut publisher, readers) {
        Ok(all) => Ok((publisher, all)),
        Err(e) => {
            publisher.close(rt);
            Err(e)
        }
    }
}
