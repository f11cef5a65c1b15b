// Laws of the small machine.
ghost use Rattle.std.specs.Prelude.{◌≡◌, List, Option};
ghost use Rattle.als_record.specs.declared.key.Key.{Key as AnyKey};
ghost use Rattle.als_record.specs.Commits.{Commit as AnyCommit};
ghost use Rattle.als_view.specs.declared.answer.Answer.{Answer as AnyAnswer};
ghost use Rattle.als_view.specs.Answers.{IsAnswer};
ghost use Rattle.als_view.specs.Entries.{Begins};
ghost use Rattle.als_view.specs.Reading.{ReadsFront};
ghost use Rattle.als_store.specs.Stored.{acknowledged};
ghost use Rattle.als_engine.specs.Machine.{Machine};
ghost use Rattle.als_engine.specs.Publishing.{published_in};
ghost use Rattle.als_engine.specs.Telling.{Stands};

/// A law: where the published commits of an engine begin with what a reader knows, each answer of
/// what it knows or knew is what the committed transactions of a front of the held log left. All of
/// this front's commits are acknowledged.
pub fn answers_are_of_published_commits()
    ensures { (m : Machine) (key : AnyKey) (known : Option (List AnyCommit)) (a : AnyAnswer)
        → Stands m → Begins known (published_in m) → IsAnswer m.held.pages key known a
        → ReadsFront m.held.log (acknowledged m.held) m.held.pages key a }
{}
