//! The report of a check: the counts of a web and its edges. It prints what the web has and finds out nothing.

ghost use Rattle.std.specs.Prelude.{◌≡◌, ◌<◌, ◌++◌, ◌∷◌, IfOk, OnOk, length, map, string_bytes};
ghost use Rattle.std.specs.List.{flat_map};
ghost use Rattle.tv_spec_plane.specs.Web.{compact};
ghost use Rattle.tv_degrees.specs.Edges.{edge_at};
ghost use Rattle.tv_spec_text.specs.Lines.{line_text};
ghost use Rattle.tv_spec_text.specs.Checks.{title_line, count_line, head_lines, edge_words, edge_line, open_line, check_text};
ghost use Rattle.tv_spec_text.specs.Files.{end_line};

use std::alloc::{AllocError, Global};
use tv_degrees::grade::GradedWeb;
use tv_spec_plane::records::{CompactEdge, OuterEdge};

/// The report of a check, in lines that end in LF: `report check`; the counts of points, triangles, compact and open edges; a
/// line for each compact edge in the web's order, with its two points, the two opposite ones, the two normal degrees and the
/// degree; a line for each open edge in the web's order, with its two points and its corner; and `end`. It errs only for
/// want of memory.
pub fn print_check(alloc: Global, web: &GradedWeb) -> Result<Vec<u8>, AllocError>
    ensures { IfOk result (λ v. v.items ≡ check_text web.now) }
{
    let mut text = String::new(alloc);
    put_head(&mut text, web)?;
    put_edges(&mut text, web)?;
    put_open_edges(&mut text, web.outer())?;
    put_end(&mut text)?;
    Ok(text.into_bytes())
}

fn put_head(text: &mut String, web: &GradedWeb) -> Result<(), AllocError>
    ensures { OnOk result (string_bytes text.new ≡ string_bytes text.old ++ flat_map line_text (head_lines web.now)) }
{
    put_title(text)?;
    put_count(text, "points", web.web().points().len())?;
    put_count(text, "triangles", web.web().triangles().len())?;
    put_count(text, "compact", web.compact().len())?;
    put_count(text, "open", web.outer().len())
}

#[tactic(auto, unfolding(tv_spec_text::specs::Lines::line_text))]
fn put_title(text: &mut String) -> Result<(), AllocError>
    ensures { OnOk result (string_bytes text.new ≡ string_bytes text.old ++ line_text title_line) }
{
    writeln!(text, "report check")
}

#[tactic(auto, unfolding(tv_spec_text::specs::Lines::line_text))]
fn put_count(text: &mut String, word: &str, count: usize) -> Result<(), AllocError>
    ensures { OnOk result (string_bytes text.new ≡ string_bytes text.old ++ line_text (count_line word.now count)) }
{
    writeln!(text, "{word} {count}")
}

fn put_edges(text: &mut String, web: &GradedWeb) -> Result<(), AllocError>
    ensures { OnOk result (string_bytes text.new ≡
        string_bytes text.old ++ flat_map line_text (map (edge_line web.now) (compact web.now))) }
{
    for e in 0..web.compact().len() as u32 {
        put_edge(text, web, e)?;
    }
    Ok(())
}

fn put_edge(text: &mut String, web: &GradedWeb, e: u32) -> Result<(), AllocError>
    requires { e < length (compact web.now) }
    ensures { OnOk result (string_bytes text.new ≡
        string_bytes text.old ++ line_text (edge_line web.now (edge_at web.now e))) }
{
    let (first, second) = web.normals(e);
    put_edge_words(
        text,
        web.compact()[e as usize],
        first,
        second,
        web.degree_of(e),
    )
}

fn put_edge_words(
    text: &mut String,
    edge: CompactEdge,
    first: i64,
    second: i64,
    degree: i64,
) -> Result<(), AllocError>
    ensures { OnOk result (string_bytes text.new ≡
        string_bytes text.old ++ line_text (edge_words edge first second degree)) }
{
    let CompactEdge { a, b, c, d, .. } = edge;
    writeln!(
        text,
        "edge {a} {b} opposite {c} {d} normal {first} {second} degree {degree}"
    )?;
    Ok(())
}

fn put_open_edges(text: &mut String, edges: &[OuterEdge]) -> Result<(), AllocError>
    ensures { OnOk result (string_bytes text.new ≡ string_bytes text.old ++ flat_map line_text (map open_line edges.now)) }
{
    for edge in edges {
        put_open_edge(text, *edge)?;
    }
    Ok(())
}

#[tactic(auto, unfolding(tv_spec_text::specs::Lines::line_text))]
fn put_open_edge(text: &mut String, edge: OuterEdge) -> Result<(), AllocError>
    ensures { OnOk result (string_bytes text.new ≡ string_bytes text.old ++ line_text (open_line edge)) }
{
    let OuterEdge { a, b, corner } = edge;
    writeln!(text, "open {a} {b} corner {corner}")
}

#[tactic(auto, unfolding(tv_spec_text::specs::Lines::line_text))]
fn put_end(text: &mut String) -> Result<(), AllocError>
    ensures { OnOk result (string_bytes text.new ≡ string_bytes text.old ++ line_text end_line) }
{
    writeln!(text, "end")
}
