//! The report of a series. It prints what it is given, and does not look whether the terms are those of a series.

ghost use Rattle.std.specs.Prelude.{◌≡◌, ◌++◌, ◌∷◌, IfOk, OnOk, codes, map, string_bytes};
ghost use Rattle.std.specs.List.{flat_map};
ghost use Rattle.tv_spec_text.specs.Lines.{line_text, spelled};
ghost use Rattle.tv_spec_text.specs.Reports.{term_line, class_line, section_lines, series_text};
ghost use Rattle.tv_spec_text.specs.Files.{heights_line, end_line};
ghost use Rattle.tv_text.specs.Sections.{kind_word, head_lines, kind_line, degree_line, upto_line};

use crate::numbers::end_with_numbers;
use std::alloc::{AllocError, Global};
use std::marker::Model;

/// Which series is printed.
#[derive(Clone, Copy, Debug, PartialEq, Eq)]
pub enum Kind {
    /// The series of all configurations.
    Full,
    /// The full series divided by that of class zero.
    Reduced,
}

impl Kind {
    fn word(self) -> &'static str
        ensures { result.now ≡ kind_word self }
    {
        match self {
            Kind::Full => "full",
            Kind::Reduced => "reduced",
        }
    }
}

/// An exponent and its coefficient.
#[derive(Clone, Copy, Debug)]
pub struct Term {
    /// The Euler characteristic.
    pub exponent: i64,
    /// The coefficient at it.
    pub coefficient: i128,
}

impl Model for Term {
    ghost use Rattle.tv_spec_text.specs.Reports.{Term as SeenTerm};

    ghost Value = { SeenTerm };

    ghost view = { λ t. record { exponent = t.exponent; coefficient = t.coefficient } };

    ghost inverse = { λ t. record { exponent = t.exponent; coefficient = t.coefficient } };
}

/// A class by its degree and its entries, and the terms of its series in the order in which they are printed.
#[derive(Debug, Drop)]
pub struct Section {
    /// The degree of the class.
    pub degree: i64,
    /// Its entries, in the order of the points.
    pub entries: Vec<i64>,
    /// The terms of its series.
    pub terms: Vec<Term>,
}

impl Model for Section {
    ghost use Rattle.tv_spec_text.specs.Reports.{Section as SeenSection};

    ghost Value = { SeenSection };

    ghost view = { λ s. record { degree = s.degree; entries = s.entries.items; terms = s.terms.items } };
}

/// The report of the series of the given kind: the heights, the degree and the exponent through which it goes, and
/// the sections in their order. It errs only for want of memory.
pub fn print_sections(
    alloc: Global,
    kind: Kind,
    heights: &[i64],
    degree: i64,
    upto: i64,
    sections: &[Section],
) -> Result<Vec<u8>, AllocError>
    ensures { IfOk result (λ v. v.items ≡ series_text (kind_word kind) heights.now degree upto sections.now) }
{
    let mut text = String::new(alloc);
    put_head(&mut text, kind, heights, degree, upto)?;
    put_sections(&mut text, sections)?;
    put_end(&mut text)?;
    Ok(text.into_bytes())
}

fn put_head(
    text: &mut String,
    kind: Kind,
    heights: &[i64],
    degree: i64,
    upto: i64,
) -> Result<(), AllocError>
    ensures { OnOk result (string_bytes text.new ≡ string_bytes text.old ++ flat_map line_text (head_lines (kind_word kind) heights.now degree upto)) }
{
    put_title(text, kind)?;
    put_heights(text, heights)?;
    put_degree(text, degree)?;
    put_upto(text, upto)
}

#[tactic(auto, unfolding(tv_spec_text::specs::Lines::line_text))]
fn put_title(text: &mut String, kind: Kind) -> Result<(), AllocError>
    ensures { OnOk result (string_bytes text.new ≡ string_bytes text.old ++ line_text (kind_line (kind_word kind))) }
{
    let title = kind.word();
    writeln!(text, "report series {title}")?;
    Ok(())
}

/// The line of the heights.
pub fn put_heights(text: &mut String, heights: &[i64]) -> Result<(), AllocError>
    ensures { OnOk result (string_bytes text.new ≡ string_bytes text.old ++ line_text (heights_line heights.now)) }
{
    write!(text, "heights")?;
    end_with_numbers(text, heights)?;
    Ok(())
}

/// The line of the greatest degree.
#[tactic(auto, unfolding(tv_spec_text::specs::Lines::line_text))]
pub fn put_degree(text: &mut String, degree: i64) -> Result<(), AllocError>
    ensures { OnOk result (string_bytes text.new ≡ string_bytes text.old ++ line_text (degree_line degree)) }
{
    writeln!(text, "degree {degree}")
}

/// The line of the last exponent.
#[tactic(auto, unfolding(tv_spec_text::specs::Lines::line_text))]
pub fn put_upto(text: &mut String, upto: i64) -> Result<(), AllocError>
    ensures { OnOk result (string_bytes text.new ≡ string_bytes text.old ++ line_text (upto_line upto)) }
{
    writeln!(text, "upto {upto}")
}

/// The last line.
#[tactic(auto, unfolding(tv_spec_text::specs::Lines::line_text))]
pub fn put_end(text: &mut String) -> Result<(), AllocError>
    ensures { OnOk result (string_bytes text.new ≡ string_bytes text.old ++ line_text end_line) }
{
    writeln!(text, "end")
}

fn put_sections(text: &mut String, sections: &[Section]) -> Result<(), AllocError>
    ensures { OnOk result (string_bytes text.new ≡ string_bytes text.old ++ flat_map line_text (flat_map section_lines sections.now)) }
{
    for section in sections {
        put_section(text, section)?;
    }
    Ok(())
}

/// The line of a class, and a line for each term of its series.
pub fn put_section(text: &mut String, section: &Section) -> Result<(), AllocError>
    ensures { OnOk result (string_bytes text.new ≡ string_bytes text.old ++ flat_map line_text (section_lines section.now)) }
{
    put_class(text, section.degree, &section.entries)?;
    put_terms(text, &section.terms)
}

fn put_class(text: &mut String, degree: i64, entries: &[i64]) -> Result<(), AllocError>
    ensures { OnOk result (string_bytes text.new ≡ string_bytes text.old ++ line_text (codes "class" ∷ spelled degree ∷ map spelled entries.now)) }
{
    write!(text, "class {degree}")?;
    end_with_numbers(text, entries)?;
    Ok(())
}

fn put_terms(text: &mut String, terms: &[Term]) -> Result<(), AllocError>
    ensures { OnOk result (string_bytes text.new ≡ string_bytes text.old ++ flat_map line_text (map term_line terms.now)) }
{
    for term in terms {
        put_term(text, term)?;
    }
    Ok(())
}

#[tactic(auto, unfolding(tv_spec_text::specs::Lines::line_text))]
fn put_term(text: &mut String, term: &Term) -> Result<(), AllocError>
    ensures { OnOk result (string_bytes text.new ≡ string_bytes text.old ++ line_text (term_line term.now)) }
{
    let exponent = term.exponent;
    let coefficient = term.coefficient;
    writeln!(text, "term {exponent} {coefficient}")
}

#[cfg(test)]
mod tests {
    use super::*;
    use std::test::Fail;

    const REPORT: &[u8] =
        b"report series full\nheights 0 0 0\ndegree 0\nupto 4\nclass 0 0 0 0\nterm 0 1\nterm 1 -1\nterm 2 3\nterm 3 -6\nterm 4 13\nend\n";

    fn term(exponent: i64, coefficient: i128) -> Term {
        Term {
            exponent,
            coefficient,
        }
    }

    // The class of no edge, of degree 0, with these terms.
    fn section(alloc: Global, terms: &[Term]) -> Result<Section, AllocError> {
        Ok(Section {
            degree: 0,
            entries: [0, 0, 0].to_vec(alloc)?,
            terms: terms.to_vec(alloc)?,
        })
    }

    // Whether the report of one class through 4 is this text.
    fn reports(alloc: Global, section: Section, text: &[u8]) -> bool {
        match print_sections(alloc, Kind::Full, &[0, 0, 0], 0, 4, &[section]) {
            Ok(report) => report.as_slice() == text,
            Err(_) => false,
        }
    }

    #[test]
    fn prints_one_corner(rt: HostRuntime) -> Result<(), Fail> {
        let terms = [
            term(0, 1),
            term(1, -1),
            term(2, 3),
            term(3, -6),
            term(4, 13),
        ];
        let section = section(rt.alloc(), &terms)?;
        assert!(rt; reports(rt.alloc(), section, REPORT));
        Ok(())
    }
}
