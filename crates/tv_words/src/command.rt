//! The words of commands. Words that begin no command are refused at the first place where they leave every word list.

ghost use Rattle.std.specs.Prelude.{◌≡◌, ◌≢◌, ◌∷◌, ℕ, ℤ, pos, List, map, codes, MatchResult, MatchOption, IsTrue, ◌↔◌, string_bytes};
ghost use Rattle.tv_spec_text.specs.Lines.{spelled, IsNumber};
ghost use Rattle.tv_text.specs.Sections.{kind_word};
ghost use Rattle.tv_words.specs.Commands.{IsBetween, IsSide, IsDegree, name_word, Asks, IsWordsError};

use crate::entries::{Entries, EntriesError, entries_of};
use std::alloc::Global;
use thiserror::Error;
use tv_text::number::number;
use tv_text::series::Kind;

/// The least side of a grid that words may ask for.
pub const MIN_SIDE: i64 = 1;

/// The greatest side of a grid that words may ask for.
pub const MAX_SIDE: i64 = 7;

/// The greatest degree that words may ask for. The least is 0.
pub const MAX_DEGREE: i64 = 24;

/// The least order that words may ask for.
pub const MIN_ORDER: i64 = -64;

/// The least order that words may ask for with integers.
pub const MIN_INTEGERS_ORDER: i64 = 1;

/// The greatest order that words may ask for.
pub const MAX_ORDER: i64 = 64;

/// What the words ask for.
#[derive(Debug, Drop)]
pub enum Command {
    /// The edges of the file's web.
    Check,
    /// The series of that kind in degrees through `degree` (0 to 24), with exponents through `upto` (-64 to 64).
    Series { kind: Kind, degree: u32, upto: i64 },
    /// The reduced series and their integers in degrees through `degree` (0 to 24), with exponents through `upto` (1 to 64).
    Gv { degree: u32, upto: i64 },
    /// The box configurations of Euler characteristic `chi` (-64 to 64) of the class with these entries, one by one.
    Boxes { chi: i64, class: Entries },
    /// The file of the grid with `side` (1 to 7) unit squares along a side.
    Generate { side: u32 },
    /// What the report of that grid's full series, in degrees through `degree` (0 to 24) and with exponents through `upto` (-64 to
    /// 64), counts and sums.
    Summary { side: u32, degree: u32, upto: i64 },
    /// Whether the integers of a report have its series.
    Verify,
}

/// The first word of a command.
#[derive(Clone, Copy, Debug, PartialEq, Eq)]
pub(crate) enum Name {
    /// `check`
    Check,
    /// `series`
    Series,
    /// `gv`
    Gv,
    /// `boxes`
    Boxes,
    /// `generate`
    Generate,
    /// `summary`
    Summary,
    /// `verify`
    Verify,
}

/// Why words ask for nothing.
#[derive(Debug, Drop, PartialEq, Eq, Error)]
pub enum WordsError {
    /// The first place at which the words leave every word list, from 0; where they end too early, their number.
    #[error("no command has word {0}")]
    At(u64),
    /// Memory was wanting.
    #[error("out of memory")]
    Memory,
}

/// The command that the words ask for. It errs where they are no command's, with the first place at which they leave every
/// word list, and for want of memory.
pub fn parse_words(alloc: Global, words: &[String]) -> Result<Command, WordsError>
    ensures { MatchResult result (Asks (map string_bytes words.now)) (IsWordsError (map string_bytes words.now)) }
{
    let Some((name, rest)) = after_name(words) else {
        return Err(WordsError::At(0));
    };
    match name {
        Name::Check => check(rest),
        Name::Series => series(rest),
        Name::Gv => gv(rest),
        Name::Boxes => boxes(alloc, rest),
        Name::Generate => generate(rest),
        Name::Summary => summary(rest),
        Name::Verify => verify(rest),
    }
}

// The command of the word `check` and what follows it.
fn check(rest: &[String]) -> Result<Command, WordsError>
    ensures { let words = name_word Name.Check ∷ map string_bytes rest.now in MatchResult result (Asks words) (IsWordsError words) }
{
    if !rest.is_empty() {
        return Err(WordsError::At(1));
    }
    Ok(Command::Check)
}

// The command of the word `series` and what follows it.
fn series(rest: &[String]) -> Result<Command, WordsError>
    ensures { let words = name_word Name.Series ∷ map string_bytes rest.now in MatchResult result (Asks words) (IsWordsError words) }
{
    let Some((kind, degrees)) = after_kind(rest) else {
        return Err(WordsError::At(1));
    };
    let Some((degree, orders)) = after_degree(degrees) else {
        return Err(WordsError::At(2));
    };
    let Some((upto, rest)) = after_number(orders, MIN_ORDER, MAX_ORDER) else {
        return Err(WordsError::At(3));
    };
    if !rest.is_empty() {
        return Err(WordsError::At(4));
    }
    Ok(Command::Series { kind, degree, upto })
}

// The command of the word `gv` and what follows it.
fn gv(rest: &[String]) -> Result<Command, WordsError>
    ensures { let words = name_word Name.Gv ∷ map string_bytes rest.now in MatchResult result (Asks words) (IsWordsError words) }
{
    let Some((degree, orders)) = after_degree(rest) else {
        return Err(WordsError::At(1));
    };
    let Some((upto, rest)) = after_number(orders, MIN_INTEGERS_ORDER, MAX_ORDER) else {
        return Err(WordsError::At(2));
    };
    if !rest.is_empty() {
        return Err(WordsError::At(3));
    }
    Ok(Command::Gv { degree, upto })
}

// The command of the word `boxes` and what follows it.
fn boxes(alloc: Global, rest: &[String]) -> Result<Command, WordsError>
    ensures { let words = name_word Name.Boxes ∷ map string_bytes rest.now in MatchResult result (Asks words) (IsWordsError words) }
{
    let Some((chi, rest)) = after_number(rest, MIN_ORDER, MAX_ORDER) else {
        return Err(WordsError::At(1));
    };
    match entries_of(alloc, rest) {
        Ok(class) => Ok(Command::Boxes { chi, class }),
        Err(EntriesError::At(place)) => Err(WordsError::At(place)),
        Err(EntriesError::Memory) => Err(WordsError::Memory),
    }
}

// The command of the word `generate` and what follows it.
fn generate(rest: &[String]) -> Result<Command, WordsError>
    ensures { let words = name_word Name.Generate ∷ map string_bytes rest.now in MatchResult result (Asks words) (IsWordsError words) }
{
    let Some((side, rest)) = after_side(rest) else {
        return Err(WordsError::At(1));
    };
    if !rest.is_empty() {
        return Err(WordsError::At(2));
    }
    Ok(Command::Generate { side })
}

// The command of the word `summary` and what follows it.
fn summary(rest: &[String]) -> Result<Command, WordsError>
    ensures { let words = name_word Name.Summary ∷ map string_bytes rest.now in MatchResult result (Asks words) (IsWordsError words) }
{
    let Some((side, degrees)) = after_side(rest) else {
        return Err(WordsError::At(1));
    };
    let Some((degree, orders)) = after_degree(degrees) else {
        return Err(WordsError::At(2));
    };
    let Some((upto, rest)) = after_number(orders, MIN_ORDER, MAX_ORDER) else {
        return Err(WordsError::At(3));
    };
    if !rest.is_empty() {
        return Err(WordsError::At(4));
    }
    Ok(Command::Summary { side, degree, upto })
}

// The command of the word `verify` and what follows it.
fn verify(rest: &[String]) -> Result<Command, WordsError>
    ensures { let words = name_word Name.Verify ∷ map string_bytes rest.now in MatchResult result (Asks words) (IsWordsError words) }
{
    if !rest.is_empty() {
        return Err(WordsError::At(1));
    }
    Ok(Command::Verify)
}

// The command that the first word names, and what follows it.
fn after_name<'a>(words: &'a [String]) -> Option<(Name, &'a [String])>
    ensures { MatchOption result
        ((name : Name) (ws : List (List ℕ)) → map string_bytes words.now ≢ name_word name ∷ ws)
        (λ r. map string_bytes words.now ≡ name_word r.0 ∷ map string_bytes r.1.now) }
{
    if let Some(rest) = after_word(words, "check") {
        return Some((Name::Check, rest));
    }
    if let Some(rest) = after_word(words, "series") {
        return Some((Name::Series, rest));
    }
    if let Some(rest) = after_word(words, "gv") {
        return Some((Name::Gv, rest));
    }
    if let Some(rest) = after_word(words, "boxes") {
        return Some((Name::Boxes, rest));
    }
    if let Some(rest) = after_word(words, "generate") {
        return Some((Name::Generate, rest));
    }
    if let Some(rest) = after_word(words, "summary") {
        return Some((Name::Summary, rest));
    }
    match after_word(words, "verify") {
        Some(rest) => Some((Name::Verify, rest)),
        None => None,
    }
}

// The kind of series that the first word names, and what follows it.
fn after_kind<'a>(words: &'a [String]) -> Option<(Kind, &'a [String])>
    ensures { MatchOption result
        ((kind : Kind) (ws : List (List ℕ)) → map string_bytes words.now ≢ kind_word kind ∷ ws)
        (λ r. map string_bytes words.now ≡ kind_word r.0 ∷ map string_bytes r.1.now) }
{
    match after_word(words, "full") {
        Some(rest) => Some((Kind::Full, rest)),
        None => match after_word(words, "reduced") {
            Some(rest) => Some((Kind::Reduced, rest)),
            None => None,
        },
    }
}

// What follows the first word, where that is the text.
fn after_word<'a>(words: &'a [String], text: &str) -> Option<&'a [String]>
    ensures { MatchOption result
        ((ws : List (List ℕ)) → map string_bytes words.now ≢ text.now ∷ ws)
        (λ rest. map string_bytes words.now ≡ text.now ∷ map string_bytes rest.now) }
{
    let (word, rest) = words.split_first()?;
    if is_word(word, text) {
        Some(rest)
    } else {
        None
    }
}

fn is_word(word: &String, text: &str) -> bool
    ensures { IsTrue result ↔ (string_bytes word.now ≡ text.now) }
{
    word.as_str() == text
}

// The side of a grid that the first word spells, and what follows it.
fn after_side<'a>(words: &'a [String]) -> Option<(u32, &'a [String])>
    ensures { MatchOption result
        ((k : ℕ) (ws : List (List ℕ)) → IsSide k → map string_bytes words.now ≢ spelled (pos k) ∷ ws)
        (λ r. IsSide r.0 × (map string_bytes words.now ≡ spelled (pos r.0) ∷ map string_bytes r.1.now)) }
{
    match after_number(words, MIN_SIDE, MAX_SIDE) {
        Some((side, rest)) => Some((side as u32, rest)),
        None => None,
    }
}

// The degree that the first word spells, and what follows it.
fn after_degree<'a>(words: &'a [String]) -> Option<(u32, &'a [String])>
    ensures { MatchOption result
        ((d : ℕ) (ws : List (List ℕ)) → IsDegree d → map string_bytes words.now ≢ spelled (pos d) ∷ ws)
        (λ r. IsDegree r.0 × (map string_bytes words.now ≡ spelled (pos r.0) ∷ map string_bytes r.1.now)) }
{
    match after_number(words, 0, MAX_DEGREE) {
        Some((degree, rest)) => Some((degree as u32, rest)),
        None => None,
    }
}

// The number from `low` to `high` that the first word spells, and what follows it.
fn after_number<'a>(words: &'a [String], low: i64, high: i64) -> Option<(i64, &'a [String])>
    requires low { IsNumber low }
    requires high { IsNumber high }
    ensures { MatchOption result
        ((z : ℤ) (ws : List (List ℕ)) → IsBetween low high z → map string_bytes words.now ≢ spelled z ∷ ws)
        (λ r. IsBetween low high r.0 × (map string_bytes words.now ≡ spelled r.0 ∷ map string_bytes r.1.now)) }
{
    let (word, rest) = words.split_first()?;
    match number_between(word.as_bytes(), low, high) {
        Some(z) => Some((z, rest)),
        None => None,
    }
}

fn number_between(word: &[u8], low: i64, high: i64) -> Option<i64>
    requires low { IsNumber low }
    requires high { IsNumber high }
    ensures { MatchOption result
        ((z : ℤ) → IsBetween low high z → word.now ≢ spelled z)
        (λ z. IsBetween low high z × (word.now ≡ spelled z)) }
{
    let Some(z) = number(word) else {
        return None;
    };
    if z < low {
        return None;
    }
    if z > high {
        return None;
    }
    Some(z)
}
