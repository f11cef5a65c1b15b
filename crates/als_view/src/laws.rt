ghost use Rattle.std.specs.Prelude.{◌≡◌, ℕ, ◌≤◌, true, false, List, [], ◌∷◌, ◌++◌, length, take, map};
ghost use Rattle.std.specs.Prelude.{Option, Some};
ghost use Rattle.std.specs.List.{AllByRecursion};
ghost use Rattle.als_record.specs.declared.key.Key.{Key};
ghost use Rattle.als_record.specs.declared.record.Record.{Record as AnyRecord};
ghost use Rattle.als_record.specs.Validity.{is_valid};
ghost use Rattle.als_record.specs.Transactions.{is_commit};
ghost use Rattle.als_record.specs.Commits.{commits_of, Commit as AnyCommit};
ghost use Rattle.als_commits.specs.Counting.{IsEnded, ended_count};
ghost use Rattle.als_view.specs.declared.answer.Answer.{Answer};
ghost use Rattle.als_view.specs.Answers.{Answers, IsAnswer};
ghost use Rattle.als_view.specs.Entries.{AreCommits, Begins};
ghost use Rattle.als_view.specs.Many.{image_at, one_of, IsAnswerOfAll};
ghost use Rattle.als_view.specs.declared.many.Many.{Many};
ghost use Rattle.als_view.specs.Reading.{ReadsFront};
ghost use Rattle.als_view.specs.Showing.{View as AnyView, IsShowing};
ghost use Rattle.als_view.specs.Views.{listed_in};

/// A law: an answer of the first commits of a log, all of which end at or below an offset, is what
/// the committed transactions of a front of that log left.
pub fn an_answer_is_of_a_front()
    ensures { (log : List AnyRecord) (front more : List AnyCommit) (offset pages : ℕ) (key : Key)
        (a : Answer) → is_valid log ≡ true → commits_of log ≡ front ++ more
        → AllByRecursion (IsEnded offset) front → Answers a pages key front
        → ReadsFront log offset pages key a }
{}

/// A law: where the published commits, the first of a log, begin with what a reader knows, each answer
/// of what it knows or knew is what the committed transactions of a front of that log left. No more
/// are published than have ended at an offset, and all of this front have.
pub fn what_is_known_is_published()
    ensures reads { (log : List AnyRecord) (offset count pages : ℕ) (key : Key)
        (known : Option (List AnyCommit)) (a : Answer) → is_valid log ≡ true
        → count ≤ ended_count offset (commits_of log)
        → Begins known (Some (take count (commits_of log))) → IsAnswer pages key known a
        → ReadsFront log offset pages key a }
    // What begins what is known begins what it begins.
    ensures earlier { (before known published : Option (List AnyCommit)) → Begins before known
        → Begins known published → Begins before published }
{}

/// A law: a view without a commit is that of the empty log, and one of which all commits wait is
/// that of their log. It goes on to a greater acknowledged LSN, and to a log with a record that is
/// no commit.
pub fn a_view_goes_on()
    ensures start { (acknowledged : ℕ) (view : AnyView) → view.all ≡ []
        → listed_in view.published ≡ [] → view.queued ≡ [] → IsShowing [] acknowledged view }
    ensures waits { (log : List AnyRecord) (acknowledged : ℕ) (view : AnyView) → view.all ≡ []
        → listed_in view.published ≡ [] → view.queued ≡ commits_of log
        → IsShowing log acknowledged view }
    ensures rises { (log : List AnyRecord) (before after : ℕ) (view : AnyView) → before ≤ after
        → IsShowing log before view → IsShowing log after view }
    ensures other { (log : List AnyRecord) (r : AnyRecord) (acknowledged : ℕ) (view : AnyView)
        → is_valid (log ++ r ∷ []) ≡ true → is_commit r.body ≡ false
        → IsShowing log acknowledged view → IsShowing (log ++ r ∷ []) acknowledged view }
{}

/// A law: what a view shows of a valid log may be published, since these are the commits of a valid
/// log. No more commits are published than have ended at the acknowledged LSN.
pub fn shown_commits_may_be_published()
    ensures commits { (log : List AnyRecord) (acknowledged : ℕ) (view : AnyView)
        → is_valid log ≡ true → IsShowing log acknowledged view
        → AreCommits (view.all ++ view.queued) }
    ensures few { (log : List AnyRecord) (acknowledged : ℕ) (view : AnyView)
        → IsShowing log acknowledged view
        → length (listed_in view.published) ≤ ended_count acknowledged (commits_of log) }
{}

/// A law: an answer of many keys has one list of commits, and each of its images is the value that a
/// read of that key alone would be answered of this list, with the same number and LSN. So each law of
/// one answer is one of each of them, over the same list.
pub fn many_are_of_one_list()
    ensures { (pages : ℕ) (keys : List Key) (known : Option (List AnyCommit)) (a : Many)
        → IsAnswerOfAll pages keys known a → (front : List AnyCommit) × (known ≡ Some front)
        × (a.images.items ≡ map (image_at pages front) keys)
        × ((key : Key) → IsAnswer pages key known (one_of a (image_at pages front key))) }
{}
