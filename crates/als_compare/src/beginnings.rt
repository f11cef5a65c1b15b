ghost use Rattle.std.specs.Prelude.{◌≡◌, ◌≤◌, ◌⊎◌, Some, IfSome};
ghost use Rattle.als_compare.specs.declared.verdict.Verdict.TheVariants as verdict;
ghost use Rattle.als_compare.specs.Verdicts.{said_first};

use crate::verdict::Verdict;

/// Up to where a log begins as each other one of its database does, whatever takeovers came behind: up to the first
/// seal of its history, where there is one, and no further than it goes, or the other one.
pub fn beginning(first_seal: Option<u64>, end: u64, other_end: u64) -> u64
    ensures held { result ≤ end }
    ensures served { result ≤ other_end }
    ensures unsealed { IfSome first_seal (λ seal. result ≤ seal) }
    ensures whole { (result ≡ end) ⊎ ((result ≡ other_end) ⊎ (first_seal ≡ Some result)) }
{
    let both = end.min(other_end);
    match first_seal {
        Some(seal) => both.min(seal),
        None => both,
    }
}

/// What is said of a source's log by the answers to two questions: about all that is held, and about how that begins.
/// That it is another one from its beginning on is said before that it parted, or is shorter.
pub fn said_first(whole: Verdict, begun: Option<Verdict>) -> Verdict
    ensures { result ≡ said_first whole begun }
{
    match begun {
        Some(Verdict::Other) => Verdict::Other,
        _ => whole,
    }
}
