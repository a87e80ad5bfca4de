//! What one line of a report says. Whether it may stand at its place is not looked at here.

ghost use Rattle.std.specs.Prelude.{◌≡◌, ◌≢◌, ◌↔◌, ◌∷◌, [], ℕ, ℤ, List, map, codes, IsTrue, IfOk, MatchOption};
ghost use Rattle.std.specs.List.{AllByRecursion};
ghost use Rattle.tv_spec_text.specs.Lines.{IsNumber, spelled};
ghost use Rattle.tv_spec_text.specs.Files.{heights_line};
ghost use Rattle.tv_spec_text.specs.Reports.{Term as SeenTerm, term_line};
ghost use Rattle.tv_spec_reports.specs.IntegerLines.{GenusValue, integer_line};
ghost use Rattle.tv_spec_reports.specs.Grammar.{IsWideValue, IntegerFits};
ghost use Rattle.tv_text.specs.Rows.{texts};
ghost use Rattle.tv_text.specs.Sections.{degree_line, upto_line};
ghost use Rattle.tv_report_reader.specs.Rows.{title_line, class_words, TermFits, IsRow, IsNoRow};

use crate::part::Integer;
use crate::wide::wide;
use std::alloc::{AllocError, Global};
use tv_text::row::{after_count, after_number, after_word, is_only, numbers};
use tv_text::series::Term;

/// A line of a class, of a term, of an integer, or the last one.
#[derive(Drop)]
pub(crate) enum Row {
    Class(i64, Vec<i64>),
    Term(Term),
    Integer(Integer),
    End,
}

/// Whether the words are those of the first line.
pub(crate) fn is_title(words: &[&[u8]]) -> bool
    ensures { IsTrue result ↔ (texts words.now ≡ title_line) }
{
    match after_word(words, "report") {
        Some(rest) => is_only(rest, "gv"),
        None => false,
    }
}

/// The heights, where the words are those of their line.
pub(crate) fn heights_row(alloc: Global, words: &[&[u8]]) -> Result<Option<Vec<i64>>, AllocError>
    ensures { IfOk result (λ row. MatchOption row ((hs : List ℤ) → AllByRecursion IsNumber hs → texts words.now ≢ heights_line hs)
        (λ v. AllByRecursion IsNumber v.items × (texts words.now ≡ heights_line v.items))) }
{
    match after_word(words, "heights") {
        Some(rest) => numbers(alloc, rest),
        None => Ok(None),
    }
}

/// The greatest degree, where the words are those of its line.
pub(crate) fn degree_row(words: &[&[u8]]) -> Option<i64>
    ensures { MatchOption result ((z : ℤ) → IsNumber z → texts words.now ≢ degree_line z)
        (λ z. IsNumber z × (texts words.now ≡ degree_line z)) }
{
    let rest = after_word(words, "degree")?;
    last_number(rest)
}

/// The last exponent, where the words are those of its line.
pub(crate) fn upto_row(words: &[&[u8]]) -> Option<i64>
    ensures { MatchOption result ((z : ℤ) → IsNumber z → texts words.now ≢ upto_line z)
        (λ z. IsNumber z × (texts words.now ≡ upto_line z)) }
{
    let rest = after_word(words, "upto")?;
    last_number(rest)
}

fn last_number(words: &[&[u8]]) -> Option<i64>
    ensures { MatchOption result ((z : ℤ) → IsNumber z → texts words.now ≢ spelled z ∷ [])
        (λ z. IsNumber z × (texts words.now ≡ spelled z ∷ [])) }
{
    let Some((z, rest)) = after_number(words) else {
        return None;
    };
    if rest.is_empty() { Some(z) } else { None }
}

/// The class by its degree and its entries, where the words are those of its line.
pub(crate) fn class_row(
    alloc: Global,
    words: &[&[u8]],
) -> Result<Option<(i64, Vec<i64>)>, AllocError>
    ensures { IfOk result (λ row. MatchOption row ((z : ℤ) (v : List ℤ) → IsNumber z → AllByRecursion IsNumber v → texts words.now ≢ class_words z v)
        (λ r. IsNumber r.0 × AllByRecursion IsNumber r.1.items × (texts words.now ≡ class_words r.0 r.1.items))) }
{
    let Some(rest) = after_word(words, "class") else {
        return Ok(None);
    };
    let Some((degree, rest)) = after_number(rest) else {
        return Ok(None);
    };
    match numbers(alloc, rest)? {
        Some(entries) => Ok(Some((degree, entries))),
        None => Ok(None),
    }
}

/// The term, where the words are those of its line.
pub(crate) fn term_row(words: &[&[u8]]) -> Option<Term>
    ensures { MatchOption result ((t : SeenTerm) → TermFits t → texts words.now ≢ term_line t)
        (λ t. TermFits t × (texts words.now ≡ term_line t)) }
{
    let Some(rest) = after_word(words, "term") else {
        return None;
    };
    let Some((exponent, rest)) = after_number(rest) else {
        return None;
    };
    let Some(coefficient) = last_wide(rest) else {
        return None;
    };
    Some(Term {
        exponent,
        coefficient,
    })
}

fn integer_row(words: &[&[u8]]) -> Option<Integer>
    ensures { MatchOption result ((i : GenusValue) → IntegerFits i → texts words.now ≢ integer_line i)
        (λ i. IntegerFits i × (texts words.now ≡ integer_line i)) }
{
    let Some(rest) = after_word(words, "integer") else {
        return None;
    };
    let Some((genus, rest)) = after_count(rest) else {
        return None;
    };
    let Some(value) = last_wide(rest) else {
        return None;
    };
    Some(Integer { genus, value })
}

fn last_wide(words: &[&[u8]]) -> Option<i128>
    ensures { MatchOption result ((z : ℤ) → IsWideValue z → texts words.now ≢ spelled z ∷ [])
        (λ z. IsWideValue z × (texts words.now ≡ spelled z ∷ [])) }
{
    match words {
        [word] => wide(word),
        _ => None,
    }
}

/// What the words say, where they are those of a line after the terms of class zero.
pub(crate) fn read_row(alloc: Global, words: &[&[u8]]) -> Result<Option<Row>, AllocError>
    ensures { IfOk result (λ row. MatchOption row (IsNoRow (texts words.now)) (λ r. IsRow r (texts words.now))) }
{
    if let Some(term) = term_row(words) {
        return Ok(Some(Row::Term(term)));
    }
    if let Some(integer) = integer_row(words) {
        return Ok(Some(Row::Integer(integer)));
    }
    if is_only(words, "end") {
        return Ok(Some(Row::End));
    }
    match class_row(alloc, words)? {
        Some((degree, entries)) => Ok(Some(Row::Class(degree, entries))),
        None => Ok(None),
    }
}
