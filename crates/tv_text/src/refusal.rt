//! The line that says why nothing is answered. Which refusal comes is decided elsewhere.

ghost use Rattle.std.specs.Prelude.{◌≡◌, ◌++◌, IfOk, OnOk, string_bytes};
ghost use Rattle.tv_spec_text.specs.Lines.{line_text};
ghost use Rattle.tv_text.specs.Refusals.{crowd_line, differs_line, excess_line, fault_line, majorant_line, spread_line, wide_line, refusal_line};

use crate::numbers::end_with_numbers;
use std::alloc::{AllocError, Global};
use tv_lattice::class::Class;
use tv_lattice::fault::{Excess, FileFault};

/// A number beyond 2^127 - 1, by the class at which it is. The series is asked for in degrees through D, with exponents
/// through N.
#[derive(Debug, Drop)]
pub enum WideNumber {
    /// A class that has more than 2^127 - 1 configurations with at most max(0, N - 2 L) boxes. L, at most 0, is `lowest`:
    /// the least, over the assignments of degree at most D, of the sum of min(0, edge cost) less the overlap costs.
    Crowd(Class),
    /// A class and an exponent at which the sizes that meet in the division of its series add up to more.
    Spread { class: Class, exponent: i64 },
    /// A class and an exponent at which the majorant of the series and of its integers is more.
    Majorant { class: Class, exponent: i64 },
}

/// Why nothing is answered.
#[derive(Debug, Drop)]
pub enum Refusal {
    /// The place, counted from 0, of the first word with which no command goes on; the number of words where they end too
    /// early.
    Words(u64),
    /// The first check that the file fails.
    File(FileFault),
    /// The number of the web that would be too wide.
    Wide(WideNumber),
    /// The first class and its first exponent at which a series and the product over its integers differ, with both values.
    Differs {
        class: Class,
        exponent: i64,
        series: i128,
        product: i128,
    },
}

/// The refusal's one line, with its line feed. It errs only for want of memory.
pub fn print_refusal(alloc: Global, refusal: &Refusal) -> Result<Vec<u8>, AllocError>
    ensures { IfOk result (λ v. v.items ≡ line_text (refusal_line refusal.now)) }
{
    let mut text = String::new(alloc);
    put_refusal(&mut text, refusal)?;
    Ok(text.into_bytes())
}

#[tactic(auto, unfolding(tv_spec_text::specs::Lines::line_text))]
fn put_refusal(text: &mut String, refusal: &Refusal) -> Result<(), AllocError>
    ensures { OnOk result (string_bytes text.new ≡ string_bytes text.old ++ line_text (refusal_line refusal.now)) }
{
    match refusal {
        Refusal::Words(place) => writeln!(text, "refused words {place}"),
        Refusal::File(fault) => put_fault(text, fault),
        Refusal::Wide(wide) => put_wide(text, wide),
        Refusal::Differs {
            class,
            exponent,
            series,
            product,
        } => put_differs(text, *exponent, *series, *product, class.entries()),
    }
}

#[tactic(auto, unfolding(tv_spec_text::specs::Lines::line_text))]
fn put_fault(text: &mut String, fault: &FileFault) -> Result<(), AllocError>
    ensures { OnOk result (string_bytes text.new ≡ string_bytes text.old ++ line_text (fault_line fault.now)) }
{
    match fault {
        FileFault::TooLong => writeln!(text, "refused file 1"),
        FileFault::Line(line) => writeln!(text, "refused file 2 {line}"),
        FileFault::Json => writeln!(text, "refused file 13"),
        FileFault::TooMany(excess) => put_excess(text, excess),
        FileFault::Repeated(i, j) => writeln!(text, "refused file 4 {i} {j}"),
        FileFault::Index(t) => writeln!(text, "refused file 5 {t}"),
        FileFault::Flat => writeln!(text, "refused file 6"),
        FileFault::Area(t, doubled) => writeln!(text, "refused file 7 {t} {doubled}"),
        FileFault::Twice(t, u) => writeln!(text, "refused file 8 {t} {u}"),
        FileFault::Unmatched(a, b) => writeln!(text, "refused file 9 {a} {b}"),
        FileFault::Bare(a, b) => writeln!(text, "refused file 10 {a} {b}"),
        FileFault::HeightCount(count) => writeln!(text, "refused file 11 {count}"),
        FileFault::Degree(a, b, degree) => writeln!(text, "refused file 12 {a} {b} {degree}"),
    }
}

#[tactic(auto, unfolding(tv_spec_text::specs::Lines::line_text))]
fn put_excess(text: &mut String, excess: &Excess) -> Result<(), AllocError>
    ensures { OnOk result (string_bytes text.new ≡ string_bytes text.old ++ line_text (excess_line excess.now)) }
{
    match excess {
        Excess::Points(count) => writeln!(text, "refused file 3 points {count}"),
        Excess::Triangles(count) => writeln!(text, "refused file 3 triangles {count}"),
        Excess::Coordinate(point) => writeln!(text, "refused file 3 coordinate {point}"),
        Excess::Height(point) => writeln!(text, "refused file 3 height {point}"),
    }
}

fn put_wide(text: &mut String, wide: &WideNumber) -> Result<(), AllocError>
    ensures { OnOk result (string_bytes text.new ≡ string_bytes text.old ++ line_text (wide_line wide.now)) }
{
    match wide {
        WideNumber::Crowd(class) => put_crowd(text, class.entries()),
        WideNumber::Spread { class, exponent } => put_spread(text, *exponent, class.entries()),
        WideNumber::Majorant { class, exponent } => {
            put_majorant(text, *exponent, class.entries())
        }
    }
}

fn put_crowd(text: &mut String, entries: &[i64]) -> Result<(), AllocError>
    ensures { OnOk result (string_bytes text.new ≡ string_bytes text.old ++ line_text (crowd_line entries.now)) }
{
    write!(text, "refused wide crowd class")?;
    end_with_numbers(text, entries)?;
    Ok(())
}

fn put_spread(text: &mut String, exponent: i64, entries: &[i64]) -> Result<(), AllocError>
    ensures { OnOk result (string_bytes text.new ≡ string_bytes text.old ++ line_text (spread_line exponent entries.now)) }
{
    write!(text, "refused wide spread {exponent} class")?;
    end_with_numbers(text, entries)?;
    Ok(())
}

fn put_majorant(text: &mut String, exponent: i64, entries: &[i64]) -> Result<(), AllocError>
    ensures { OnOk result (string_bytes text.new ≡ string_bytes text.old ++ line_text (majorant_line exponent entries.now)) }
{
    write!(text, "refused wide majorant {exponent} class")?;
    end_with_numbers(text, entries)?;
    Ok(())
}

fn put_differs(
    text: &mut String,
    exponent: i64,
    series: i128,
    product: i128,
    entries: &[i64],
) -> Result<(), AllocError>
    ensures { OnOk result (string_bytes text.new ≡ string_bytes text.old ++ line_text (differs_line exponent series product entries.now)) }
{
    write!(text, "refused differs {exponent} {series} {product} class")?;
    end_with_numbers(text, entries)?;
    Ok(())
}

#[cfg(test)]
mod tests {
    use super::*;
    use std::test::Fail;

    fn class(alloc: Global) -> Result<Class, AllocError> {
        Ok(Class::new([-2, 2, 0].to_vec(alloc)?))
    }

    fn prints(alloc: Global, refusal: &Refusal, text: &[u8]) -> bool {
        match print_refusal(alloc, refusal) {
            Ok(line) => line.as_slice() == text,
            Err(_) => false,
        }
    }

    #[test]
    fn prints_a_refusal(rt: HostRuntime) -> Result<(), Fail> {
        let spread = WideNumber::Spread {
            class: class(rt.alloc())?,
            exponent: -7,
        };
        let wide = Refusal::Wide(spread);
        assert!(rt; prints(rt.alloc(), &wide, b"refused wide spread -7 class -2 2 0\n"));
        Ok(())
    }

    #[test]
    fn prints_a_difference(rt: HostRuntime) -> Result<(), Fail> {
        let differs = Refusal::Differs {
            class: class(rt.alloc())?,
            exponent: 5,
            series: -6,
            product: 5,
        };
        assert!(rt;
            prints(
                rt.alloc(),
                &differs,
                b"refused differs 5 -6 5 class -2 2 0\n"
            )
        );
        Ok(())
    }
}
