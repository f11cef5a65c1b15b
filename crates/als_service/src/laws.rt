// A law of what is read over HTTP while a standby follows.
ghost use Rattle.std.specs.Prelude.{◌≡◌, ℕ, Option, Some};
ghost use Rattle.als_record.specs.declared.key.Key.{Key as AnyKey};
ghost use Rattle.als_record.specs.declared.lsn.Lsn.{Lsn as AnyLsn};
ghost use Rattle.als_view.specs.declared.answer.Answer.{Answer as AnyAnswer};
ghost use Rattle.als_view.specs.declared.front.Front.{Front as AnyFront};
ghost use Rattle.als_view.specs.declared.reader.Reader.{Reader as AnyReader};
ghost use Rattle.als_view.specs.Entries.{Begins};
ghost use Rattle.als_view.specs.Fronts.{front_of};
ghost use Rattle.als_view.specs.Reading.{ReadsFront};
ghost use Rattle.als_view.specs.Views.{known_to, pages_of};
ghost use Rattle.als_store.specs.Stored.{acknowledged};
ghost use Rattle.als_engine.specs.Machine.{Machine};
ghost use Rattle.als_engine.specs.Publishing.{published_in};
ghost use Rattle.als_engine.specs.Telling.{Stands};
ghost use Rattle.als_share.specs.Reaching.{Reaches, ReachesFrom, IsToldFrom};
ghost use Rattle.als_report.specs.Reading.{IsRead};

/// A law: a value that is replied over HTTP is that of a front of the log which ends with a commit: the
/// published commits of the engine at a moment of the run. All of them are acknowledged, also in the
/// engine that comes back.
///
/// That what a reader knows is published at some moment (`Begins`) is the rule of the copies that it
/// reads, which exports no clause. `Reader::is_within` decides it of what a handle tells at any moment.
pub fn replies_are_of_published_commits()
    // Where what the reader then knew begins the commits that a machine has published. `IsRead` is what
    // als_http says of each value that it replies.
    ensures now { (m : Machine) (key : AnyKey) (least : AnyLsn)
        (a : AnyAnswer) (before : AnyReader) (reader : AnyReader) → Stands m
        → pages_of before ≡ m.held.pages → Begins (known_to reader) (published_in m)
        → IsRead (pages_of before) key (known_to reader) least a
        → ReadsFront m.held.log (acknowledged m.held) m.held.pages key a }
    // So it is of each machine that is reached from that one.
    ensures later { (m : Machine) (new : Machine) (pages : ℕ) (key : AnyKey) (a : AnyAnswer)
        → Stands m → Reaches m new → ReadsFront m.held.log (acknowledged m.held) pages key a
        → ReadsFront new.held.log (acknowledged new.held) pages key a }
    // What a handle told, a machine of the run had published.
    ensures told { (from : Option Machine) (told : AnyFront) (reader : AnyReader)
        → IsToldFrom from told → Begins (known_to reader) (front_of told)
        → (m : Machine) × ReachesFrom from m × Begins (known_to reader) (published_in m) }
{}
