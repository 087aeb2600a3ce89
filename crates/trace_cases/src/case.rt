//! The lines of the index.
ghost use Rattle.std.specs.Prelude.{◌≡◌, ◌↔◌, ℕ, ◌+◌, ◌<◌, ◌≤◌, ◌^◌, IfSome, IsNone, List, ◌∷◌, ◌++◌, map};
ghost use Rattle.std.specs.Str.Parse.{digits_value, without_leading_plus};
ghost use Rattle.trace_cases.specs.Index.{SaysFront, SaysThen, IsPlayed, IsBeyond};

use std::ops::Range;

/// How much of a trace's file is played.
#[derive(Clone, Copy, Debug, PartialEq, Eq)]
pub enum Front {
    /// All of it.
    Whole,
    /// So many bytes.
    Cut(usize),
    /// Each front but the whole file, one run after the other.
    EachCut,
}

/// A case of the index.
#[derive(Clone, Copy, Debug)]
pub struct Case<'a> {
    /// The trace's name; its bytes stand in `NAME.trace`.
    pub name: &'a str,
    pub front: Front,
    /// Hexadecimals of the bytes that follow the front.
    pub then: &'a str,
}

/// Whether a line of the index has no case: it is empty, or a comment.
pub fn is_passed_over(line: &str) -> bool {
    let line = line.trim();
    line.is_empty() || line.starts_with('#')
}

/// The case of these words: `NAME`, or `NAME cut COUNT` or `NAME cut-all` where fronts of the file are played, and
/// behind that `then HEXADECIMALS` where further bytes follow. None where the words are no case.
pub fn case_of<'a>(words: &[&'a str]) -> Option<Case<'a>>
    ensures { IfSome result (λ case. (front : List (List ℕ)) × (then : List (List ℕ))
        × (map (λ word. word.now) words.now ≡ case.name.now ∷ (front ++ then))
        × SaysFront front case.front × SaysThen then case.then.now) }
{
    let (name, front, then) = match words {
        [name] => (name, Front::Whole, ""),
        [name, "then", then] => (name, Front::Whole, *then),
        [name, "cut-all"] => (name, Front::EachCut, ""),
        [name, "cut", count] => (name, Front::Cut(number_of(count)?), ""),
        [name, "cut", count, "then", then] => (name, Front::Cut(number_of(count)?), *then),
        _ => return None,
    };
    Some(Case { name, front, then })
}

fn number_of(digits: &str) -> Option<usize>
    ensures { IfSome result (λ number. digits_value 10 (without_leading_plus digits.now) ≡ number) }
{
    digits.parse().ok()
}

/// The lengths of the fronts that are played of a file. None where a front is longer than the file.
pub fn counts_of(front: Front, length: usize) -> Option<Range<usize>>
    requires { length + 1 < 2 ^ 64 }
    ensures within { IfSome result (λ counts. counts.end ≤ length + 1) }
    ensures played { IfSome result (λ counts. (count : ℕ) → (counts.start ≤ count) × (count < counts.end) ↔ IsPlayed front length count) }
    ensures none { IsNone result ↔ IsBeyond front length }
{
    match front {
        Front::Whole => Some(length..length + 1),
        Front::Cut(count) if count <= length => Some(count..count + 1),
        Front::Cut(_) => None,
        Front::EachCut => Some(0..length),
    }
}
