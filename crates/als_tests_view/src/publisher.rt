ghost use Rattle.std.specs.Prelude.{◌≡◌};
ghost use Rattle.als_view.specs.Entries.{AreCommits};
ghost use Rattle.als_view.specs.Views.{book_by, book_of, all_by};

use als_record::{Key, Lsn};
use als_view::{Answer, Fault, Publisher, Reader, new, read_now};
use std::sync::{Mutex, Wait};
use std::test::*;
use std::thread::{Threads, join};

const KEY: Key = Key { page: 0, slot: 0 };

// Whether the list is open and empty.
fn is_empty(found: Result<Answer, Fault>) -> bool {
    match found {
        Ok(answer) => answer.commits == 0 && answer.value.is_none() && answer.lsn == Lsn(0),
        Err(_) => false,
    }
}

// A reader is refused with Warming until the list is open, and it was told so. Then it finds
// nothing, at a key outside the database too.
fn opens<R: Wait>(rt: &R, publisher: &mut Publisher, reader: &mut Reader) -> bool
    requires commits { AreCommits (all_by publisher.old) }
    requires book { book_of reader.old ≡ book_by publisher.old }
{
    let before = reader.get(KEY).err() == Some(Fault::Warming);
    reader.learn(publisher.tell());
    let told_none = reader.get(KEY).err() == Some(Fault::Warming);
    let opened = publisher.publish(rt).is_ok();
    let empty = is_empty(read_now(publisher, reader, KEY));
    reader.learn(publisher.tell());
    let outside = is_empty(reader.get(Key { page: 2, slot: 0 }));
    before && told_none && opened && empty && outside
}

#[test]
fn a_list_opens(rt: HostRuntime) -> Result<(), Fail> {
    let alloc = rt.alloc();
    let (mut publisher, mut readers) = new(alloc, &rt, 2, 1, false)?;
    let all = match readers.pop() {
        Some(mut one) => opens(&rt, &mut publisher, &mut one),
        None => false,
    };
    publisher.close(&rt);
    assert!(rt; all);
    Ok(())
}

// What an engine would be: a publisher whose commits are those of a valid log.
struct Engine {
    publisher: Publisher,
    calls: u64,
    ghost are: { AreCommits (all_by publisher) },
}

impl Drop for Engine {
    fn drop(self) {
        let Engine {
            publisher,
            calls: _,
        } = self;
        drop(publisher);
    }
}

impl Engine {
    fn publish<R: Wait>(&mut self, rt: &R) -> bool {
        self.calls = self.calls.wrapping_add(1);
        self.publisher.publish(rt).is_ok()
    }

    // The publisher, and how often was published.
    fn into_parts(self) -> (Publisher, u64) {
        let Engine { publisher, calls } = self;
        (publisher, calls)
    }
}

// Two threads publish by turns of one lock.
fn under_a_lock<R: Threads + Wait + Sync>(rt: &R, engine: Engine) -> bool {
    let shared = Mutex::new(engine);
    let (a, b) = join(
        rt,
        || shared.lock(rt).publish(rt),
        || shared.lock(rt).publish(rt),
    );
    let (publisher, calls) = shared.into_inner().into_parts();
    publisher.close(rt);
    a && b && calls == 2
}

fn start<R: Threads + Wait + Sync>(rt: &R, publisher: Publisher) -> bool
    requires { AreCommits (all_by publisher) }
{
    under_a_lock(
        rt,
        Engine {
            publisher,
            calls: 0,
        },
    )
}

// After the view has ended a reader is refused with Stopped.
#[test]
fn a_publisher_lies_in_a_lock(rt: HostRuntime) -> Result<(), Fail> {
    let alloc = rt.alloc();
    let (publisher, mut readers) = new(alloc, &rt, 2, 1, true)?;
    let done = start(&rt, publisher);
    let after = match readers.pop() {
        Some(mut one) => one.get(KEY).err(),
        None => None,
    };
    assert!(rt; done);
    assert!(rt; after == Some(Fault::Stopped));
    Ok(())
}
