ghost use Rattle.std.specs.Prelude.{◌≡◌, IfSome, Some, true};
ghost use Rattle.als_view.specs.Views.{book_of};
ghost use Rattle.als_share.specs.Ledgers.{AreNamed};

use crate::answers::{Answers, NONE};
use crate::scripts::{Scene, play, text};
use crate::standbys::{CONFIG, crashed, restarted, standby_with};
use als_engine::{Events, Reader};
use als_share::{Blanks, Counts, Handle, Ledgers, Settled, settle, share};
use std::alloc::Global;
use std::marker::Brand;
use std::sync::Wait;

/// How many events a standby has.
const EVENTS: u32 = 21;

/// A scene over an engine that is shared, by a handle. The engine comes back.
fn play_shared<L: Ledgers, E: Counts + Drop, R: Wait>(
    rt: &R,
    alloc: Global,
    engine: E,
    reader: &mut Reader,
    scene: Scene<'_>,
    blanks: Blanks,
) -> Option<(E, Answers)>
    requires start { L.start ≡ Some (E.machine engine) }
    requires book { L.book ≡ E.book engine }
    requires names { AreNamed L.names blanks.names }
    requires parts { (blanks.parts ≡ L.shares) × (L.shares ≡ 1) }
    requires takes_over { L.takes_over ≡ true }
    requires reader { book_of reader.old ≡ L.book }
{
    let (shared, mut shares, acknowledger) = share::<L, E>(alloc, engine, 1, blanks, true).ok()?;
    let mut handle = Handle::new(rt, &shared, shares.pop()?);
    let answers = play(rt, alloc, &mut handle, reader, scene);
    let mine = handle.end();
    let Settled { engine, touched: _ } = settle(shared, mine, shares, acknowledger);
    Some((engine, answers))
}

/// The same, over ledgers that are picked here.
fn by_a_handle<E: Counts + Drop, R: Wait>(
    rt: &R,
    alloc: Global,
    engine: E,
    reader: &mut Reader,
    scene: Scene<'_>,
) -> Option<(E, Answers)>
    requires { book_of reader.old ≡ E.book engine }
{
    play_shared::<Brand, E, R>(rt, alloc, engine, reader, scene, Blanks::new(1))
}

/// What the engine itself answers.
fn ask_engine<R: Wait>(rt: &R, alloc: Global, text: &[u8]) -> Option<Answers> {
    let (engine, reader) = restarted(rt, alloc)?;
    let mut engine = engine;
    let mut reader = reader;
    let scene = Scene::Whole(text);
    Some(play(rt, alloc, &mut engine, &mut reader, scene))
}

/// What a handle answers.
fn ask_handle<R: Wait>(rt: &R, alloc: Global, text: &[u8]) -> Option<Answers> {
    let (engine, reader) = restarted(rt, alloc)?;
    let mut reader = reader;
    let (_, answers) = by_a_handle(rt, alloc, engine, &mut reader, Scene::Whole(text))?;
    Some(answers)
}

/// Whether both answered the same, and each event answered Ok once at least. `None`: memory was
/// refused.
fn are_same(one: Answers, other: Answers) -> Option<bool> {
    let all = one.events_made() == EVENTS && other.events_made() == EVENTS;
    let one = one.numbers()?;
    let other = other.numbers()?;
    Some(all && one.as_slice() == other.as_slice())
}

/// One run of the script each.
fn compare<R: Wait>(rt: &R, alloc: Global) -> Option<bool> {
    let text = text(alloc)?;
    let one = ask_engine(rt, alloc, text.as_slice())?;
    let other = ask_handle(rt, alloc, text.as_slice())?;
    are_same(one, other)
}

#[test]
fn handle_answers_as_its_engine(rt: HostRuntime) {
    let alloc = rt.alloc();
    assert!(rt; compare(&rt, alloc) == Some(true) || compare(&rt, alloc) == Some(true));
}

/// What is answered before a crash.
const BEFORE: [u64; 17] = [
    // The feed took 92 bytes and 3 records. Nothing is acknowledged, so nothing is published.
    0, 92, 3, 27, //
    // No commit is seen, and no value.
    0, 0, NONE, //
    // The log is forced up to 108, and its commit is published.
    0, 0, 0, 0, 108, 0, //
    // One commit is seen, whose record is at 52, and its value of one byte.
    1, 52, 0xaa, 1,
];

/// What is answered after it.
const AFTER: [u64; 11] = [
    // No list of commits is published yet.
    35, //
    // Lease 1, of page 0 with one change, is given, and the standby is ready.
    0, 1, 0, 1, 0, 0, //
    // The commit is seen.
    1, 52, 0xaa, 1,
];

/// A commit is published by a handle, and again by one after a crash. `None`: allocation failed.
fn publish_twice<R: Wait>(rt: &R, alloc: Global) -> Option<(Answers, Answers)> {
    let (engine, mut readers) = standby_with(rt, alloc, 8, CONFIG)?;
    let mut reader = readers.pop()?;
    let (engine, before) = by_a_handle(rt, alloc, engine, &mut reader, Scene::Published)?;
    let (engine, reader) = crashed(rt, alloc, engine)?;
    let mut reader = reader;
    let (_, after) = by_a_handle(rt, alloc, engine, &mut reader, Scene::Recovered)?;
    Some((before, after))
}

/// Whether all was answered as expected.
fn are_expected<R: Wait>(rt: &R, alloc: Global) -> Option<bool> {
    let (before, after) = publish_twice(rt, alloc)?;
    let before = before.numbers()?;
    let after = after.numbers()?;
    Some(before.as_slice() == BEFORE.as_slice() && after.as_slice() == AFTER.as_slice())
}

#[test]
fn a_reader_is_told_by_a_handle(rt: HostRuntime) {
    let alloc = rt.alloc();
    assert!(rt; are_expected(&rt, alloc) == Some(true) || are_expected(&rt, alloc) == Some(true));
}
