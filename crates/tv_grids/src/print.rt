//! A file as text. How its numbers are read back is not looked at here.

ghost use Rattle.std.specs.Prelude.{◌≡◌, ◌++◌, ◌∷◌, [], IfOk, OnOk, map, string_bytes};
ghost use Rattle.std.specs.List.{flat_map};
ghost use Rattle.tv_spec_text.specs.Lines.{line_text, text_of};
ghost use Rattle.tv_spec_text.specs.Files.{first_line, point_line, triangle_line, heights_line, end_line, file_lines};
ghost use Rattle.tv_text.specs.Printed.{spaced};

use std::alloc::{AllocError, Global};
use tv_lattice::Triple;
use tv_lattice::file::FileData;
use tv_lattice::point::Point;

/// The text of the file: the lines that spell it, each with its line feed. It errs only for want of memory.
pub fn print_file(alloc: Global, file: &FileData) -> Result<Vec<u8>, AllocError>
    ensures { IfOk result (λ v. v.items ≡ text_of (file_lines file.now)) }
{
    let mut text = String::new(alloc);
    put_first(&mut text)?;
    put_points(&mut text, &file.points)?;
    put_triangles(&mut text, &file.triangles)?;
    put_heights(&mut text, &file.heights)?;
    put_end(&mut text)?;
    Ok(text.into_bytes())
}

#[tactic(auto, unfolding(tv_spec_text::specs::Lines::line_text))]
fn put_first(text: &mut String) -> Result<(), AllocError>
    ensures { OnOk result (string_bytes text.new ≡ string_bytes text.old ++ line_text first_line) }
{
    writeln!(text, "tv 1")
}

fn put_points(text: &mut String, points: &[Point]) -> Result<(), AllocError>
    ensures { OnOk result (string_bytes text.new
        ≡ string_bytes text.old ++ flat_map (λ p. line_text (point_line p)) points.now) }
{
    for point in points {
        put_point(text, point)?;
    }
    Ok(())
}

#[tactic(auto, unfolding(tv_spec_text::specs::Lines::line_text))]
fn put_point(text: &mut String, point: &Point) -> Result<(), AllocError>
    ensures { OnOk result (string_bytes text.new ≡ string_bytes text.old ++ line_text (point_line point.now)) }
{
    let x = point.x();
    let y = point.y();
    writeln!(text, "point {x} {y}")
}

fn put_triangles(text: &mut String, triangles: &[Triple]) -> Result<(), AllocError>
    ensures { OnOk result (string_bytes text.new
        ≡ string_bytes text.old ++ flat_map (λ t. line_text (triangle_line t)) triangles.now) }
{
    for triangle in triangles {
        put_triangle(text, triangle)?;
    }
    Ok(())
}

#[tactic(auto, unfolding(tv_spec_text::specs::Lines::line_text))]
fn put_triangle(text: &mut String, triangle: &Triple) -> Result<(), AllocError>
    ensures { OnOk result (string_bytes text.new ≡ string_bytes text.old ++ line_text (triangle_line triangle.now)) }
{
    let a = triangle.a;
    let b = triangle.b;
    let c = triangle.c;
    writeln!(text, "triangle {a} {b} {c}")
}

fn put_heights(text: &mut String, heights: &[i64]) -> Result<(), AllocError>
    ensures { OnOk result (string_bytes text.new ≡ string_bytes text.old ++ line_text (heights_line heights.now)) }
{
    write!(text, "heights")?;
    put_numbers(text, heights)?;
    writeln!(text)?;
    Ok(())
}

fn put_numbers(text: &mut String, numbers: &[i64]) -> Result<(), AllocError>
    ensures { OnOk result (string_bytes text.new ≡ string_bytes text.old ++ spaced numbers.now) }
{
    for number in numbers {
        write!(text, " {number}")?;
    }
    Ok(())
}

#[tactic(auto, unfolding(tv_spec_text::specs::Lines::line_text))]
fn put_end(text: &mut String) -> Result<(), AllocError>
    ensures { OnOk result (string_bytes text.new ≡ string_bytes text.old ++ line_text end_line) }
{
    writeln!(text, "end")
}
