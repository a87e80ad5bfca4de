//! What one line of a file says. Whether it may stand at its place is not looked at here.

ghost use Rattle.std.specs.Prelude.{◌≡◌, ◌≢◌, ◌↔◌, ◌∷◌, [], ℕ, ℤ, List, map, pos, codes, IsTrue, IfOk, MatchOption};
ghost use Rattle.std.specs.List.{AllByRecursion};
ghost use Rattle.tv_spec_plane.specs.declared.records.RawPoint.{RawPoint as SeenPoint};
ghost use Rattle.tv_spec_plane.specs.declared.records.Triple.{Triple as SeenTriple};
ghost use Rattle.tv_spec_text.specs.Lines.{IsCount, IsNumber, spelled};
ghost use Rattle.tv_spec_text.specs.Files.{first_line, point_line, triangle_line, heights_line, end_line, PointFits, TriangleFits};
ghost use Rattle.tv_text.specs.Rows.{texts, IsRow, IsNoRow};

use crate::number::{count, number};
use std::alloc::{AllocError, Global};
use tv_lattice::{RawPoint, Triple};

#[derive(Drop)]
pub(crate) enum Row {
    First,
    Point(RawPoint),
    Triangle(Triple),
    Heights(Vec<i64>),
    End,
}

// What the words of a line say, if they are the words of a line of a file.
pub(crate) fn read_row(alloc: Global, words: &[&[u8]]) -> Result<Option<Row>, AllocError>
    ensures { IfOk result (λ row. MatchOption row (IsNoRow (texts words.now)) (λ r. IsRow r (texts words.now))) }
{
    if is_first(words) {
        return Ok(Some(Row::First));
    }
    if let Some(point) = point_row(words) {
        return Ok(Some(Row::Point(point)));
    }
    if let Some(triangle) = triangle_row(words) {
        return Ok(Some(Row::Triangle(triangle)));
    }
    if let Some(heights) = heights_row(alloc, words)? {
        return Ok(Some(Row::Heights(heights)));
    }
    if is_only(words, "end") {
        return Ok(Some(Row::End));
    }
    Ok(None)
}

fn is_first(words: &[&[u8]]) -> bool
    ensures { IsTrue result ↔ (texts words.now ≡ first_line) }
{
    match after_word(words, "tv") {
        Some(rest) => is_only(rest, "1"),
        None => false,
    }
}

/// Whether there is one word, and it is the text.
pub fn is_only(words: &[&[u8]], text: &str) -> bool
    ensures { IsTrue result ↔ (texts words.now ≡ text.now ∷ []) }
{
    match after_word(words, text) {
        Some(rest) => rest.is_empty(),
        None => false,
    }
}

fn point_row(words: &[&[u8]]) -> Option<RawPoint>
    ensures { MatchOption result ((p : SeenPoint) → PointFits p → texts words.now ≢ point_line p) (λ p. PointFits p × (texts words.now ≡ point_line p)) }
{
    let Some(rest) = after_word(words, "point") else {
        return None;
    };
    let Some((x, rest)) = after_number(rest) else {
        return None;
    };
    let Some((y, rest)) = after_number(rest) else {
        return None;
    };
    if rest.is_empty() {
        Some(RawPoint { x, y })
    } else {
        None
    }
}

fn triangle_row(words: &[&[u8]]) -> Option<Triple>
    ensures { MatchOption result ((t : SeenTriple) → TriangleFits t → texts words.now ≢ triangle_line t) (λ t. TriangleFits t × (texts words.now ≡ triangle_line t)) }
{
    let Some(rest) = after_word(words, "triangle") else {
        return None;
    };
    let Some((a, rest)) = after_count(rest) else {
        return None;
    };
    let Some((b, rest)) = after_count(rest) else {
        return None;
    };
    let Some((c, rest)) = after_count(rest) else {
        return None;
    };
    if rest.is_empty() {
        Some(Triple { a, b, c })
    } else {
        None
    }
}

fn heights_row(alloc: Global, words: &[&[u8]]) -> Result<Option<Vec<i64>>, AllocError>
    ensures { IfOk result (λ row. MatchOption row ((hs : List ℤ) → AllByRecursion IsNumber hs → texts words.now ≢ heights_line hs) (λ v. AllByRecursion IsNumber v.items × (texts words.now ≡ heights_line v.items))) }
{
    match after_word(words, "heights") {
        Some(rest) => numbers(alloc, rest),
        None => Ok(None),
    }
}

/// The numbers, of at most nine digits, that the words spell; None where a word spells none. It errs only for want of memory.
pub fn numbers(alloc: Global, words: &[&[u8]]) -> Result<Option<Vec<i64>>, AllocError>
    ensures { IfOk result (λ row. MatchOption row ((hs : List ℤ) → AllByRecursion IsNumber hs → texts words.now ≢ map spelled hs) (λ v. AllByRecursion IsNumber v.items × (texts words.now ≡ map spelled v.items))) }
{
    let mut numbers = Vec::new(alloc);
    for word in words {
        match number(word) {
            Some(z) => numbers.push(z)?,
            None => return Ok(None),
        }
    }
    Ok(Some(numbers))
}

/// What follows the first word, where that is the text; None where it is another, or there is none.
pub fn after_word<'a>(words: &'a [&'a [u8]], text: &str) -> Option<&'a [&'a [u8]]>
    ensures { MatchOption result ((ws : List (List ℕ)) → texts words.now ≢ text.now ∷ ws) (λ rest. texts words.now ≡ text.now ∷ texts rest.now) }
{
    match words {
        [first, rest @ ..] => {
            if is_word(first, text) {
                Some(rest)
            } else {
                None
            }
        }
        [] => None,
    }
}

fn is_word(word: &[u8], text: &str) -> bool
    ensures { IsTrue result ↔ (word.now ≡ text.now) }
{
    word == text.as_bytes()
}

/// The number, of at most nine digits, that the first word spells, and what follows it; None where it spells none, or
/// there is no word.
pub fn after_number<'a>(words: &'a [&'a [u8]]) -> Option<(i64, &'a [&'a [u8]])>
    ensures { MatchOption result ((z : ℤ) (ws : List (List ℕ)) → IsNumber z → texts words.now ≢ spelled z ∷ ws) (λ r. IsNumber r.0 × (texts words.now ≡ spelled r.0 ∷ texts r.1.now)) }
{
    match words {
        [first, rest @ ..] => {
            let z = number(first)?;
            Some((z, rest))
        }
        [] => None,
    }
}

/// The count, of at most nine digits, that the first word spells, and what follows it; None where it spells none, or
/// there is no word.
pub fn after_count<'a>(words: &'a [&'a [u8]]) -> Option<(u32, &'a [&'a [u8]])>
    ensures { MatchOption result ((n : ℕ) (ws : List (List ℕ)) → IsCount n → texts words.now ≢ spelled (pos n) ∷ ws) (λ r. IsCount r.0 × (texts words.now ≡ spelled (pos r.0) ∷ texts r.1.now)) }
{
    match words {
        [first, rest @ ..] => {
            let n = count(first)?;
            Some((n, rest))
        }
        [] => None,
    }
}
