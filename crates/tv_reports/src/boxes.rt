//! The report of box configurations, piece by piece. It is told their parts, and does not look whether they are those of the class.

ghost use Rattle.std.specs.Prelude.{◌≡◌, ◌++◌, ◌∷◌, [], ℕ, List, length, map, codes, IfOk, OnOk, string_bytes};
ghost use Rattle.std.specs.List.{flat_map};
ghost use Rattle.tv_spec_plane.specs.Web.{degree_of, class_sign};
ghost use Rattle.tv_spec_boxes.specs.Configurations.{configuration};
ghost use Rattle.tv_spec_text.specs.Lines.{line_text, text_of, spelled};
ghost use Rattle.tv_spec_text.specs.Reports.{class_line};
ghost use Rattle.tv_spec_reports.specs.Boxes.{boxes_head, config_lines, leg_line, leg_lines, box_line, box_lines};
ghost use Rattle.tv_reports.specs.Sums.{number_line};
ghost use Rattle.tv_reports.specs.Configs.{boxes_title, config_title, leg_front, plain_class, cells_of, rows_spaced};

use std::alloc::{AllocError, Global};
use tv_cells::cell::Cell;
use tv_degrees::grade::GradedWeb;
use tv_degrees::sign::sign;
use tv_lattice::class::Class;
use tv_partition::diagram::Diagram;
use tv_spec_plane::records::CompactEdge;
use tv_text::series::{Section, put_heights, put_section};

/// The lines before the configurations of a class and an Euler characteristic, each ended by LF: `report boxes`; the heights; the
/// Euler characteristic; the class, by its degree and its entries; and the sign that each configuration of both has, 1 or -1, also
/// where there is none. It errs only for want of memory.
pub fn print_boxes_head(
    alloc: Global,
    web: &GradedWeb,
    class: &Class,
    chi: i64,
) -> Result<Vec<u8>, AllocError>
    requires one_each { length class.now ≡ length web.now.points }
    ensures { IfOk result (λ v. v.items ≡ text_of (boxes_head web.now class.now chi)) }
{
    let mut text = String::new(alloc);
    put_title(&mut text)?;
    put_heights(&mut text, web.heights())?;
    put_chi(&mut text, chi)?;
    put_class(alloc, &mut text, web, class)?;
    put_sign(&mut text, web, class, chi)?;
    Ok(text.into_bytes())
}

#[tactic(auto, unfolding(tv_spec_text::specs::Lines::line_text))]
fn put_title(text: &mut String) -> Result<(), AllocError>
    ensures { OnOk result (string_bytes text.new ≡ string_bytes text.old ++ line_text boxes_title) }
{
    writeln!(text, "report boxes")
}

#[tactic(auto, unfolding(tv_spec_text::specs::Lines::line_text))]
fn put_chi(text: &mut String, chi: i64) -> Result<(), AllocError>
    ensures { OnOk result (string_bytes text.new ≡ string_bytes text.old ++ line_text (number_line (codes "chi") chi)) }
{
    writeln!(text, "chi {chi}")
}

fn put_class(
    alloc: Global,
    text: &mut String,
    web: &GradedWeb,
    class: &Class,
) -> Result<(), AllocError>
    requires { length class.now ≡ length web.now.points }
    ensures { OnOk result (string_bytes text.new ≡
        string_bytes text.old ++ line_text (class_line (plain_class (degree_of web.now.heights class.now) class.now))) }
{
    web.known();
    put_plain(alloc, text, class.degree(web.heights()), class)
}

// The line of a class, as that of a section without terms.
pub(crate) fn put_plain(
    alloc: Global,
    text: &mut String,
    degree: i64,
    class: &Class,
) -> Result<(), AllocError>
    ensures { OnOk result (string_bytes text.new ≡ string_bytes text.old ++ line_text (class_line (plain_class degree class.now))) }
{
    let entries = Vec::from_slice(alloc, class.entries())?;
    let section = Section {
        degree,
        entries,
        terms: Vec::new(alloc),
    };
    put_section(text, &section)
}

fn put_sign(text: &mut String, web: &GradedWeb, class: &Class, chi: i64) -> Result<(), AllocError>
    requires { length class.now ≡ length web.now.points }
    ensures { OnOk result (string_bytes text.new ≡
        string_bytes text.old ++ line_text (number_line (codes "sign") (class_sign web.now.points class.now chi))) }
{
    put_sign_line(text, sign_of(web, class, chi))
}

fn sign_of(web: &GradedWeb, class: &Class, chi: i64) -> i64
    requires { length class.now ≡ length web.now.points }
    ensures { result ≡ class_sign web.now.points class.now chi }
{
    sign(web.web().points(), class, chi)
}

#[tactic(auto, unfolding(tv_spec_text::specs::Lines::line_text))]
fn put_sign_line(text: &mut String, sign: i64) -> Result<(), AllocError>
    ensures { OnOk result (string_bytes text.new ≡ string_bytes text.old ++ line_text (number_line (codes "sign") sign)) }
{
    writeln!(text, "sign {sign}")
}

/// The lines of one configuration, each ended by LF: `config`; for each compact edge in the web's order whose diagram has a cell a
/// line with its two points and the rows of the diagram; and for each corner, counted from 0, a line with its number and the
/// coordinates of each of its boxes. There is a diagram for each compact edge, in their order, and there are the boxes of each
/// corner; diagrams beyond the last edge are left out. It errs only for want of memory.
pub fn print_config(
    alloc: Global,
    web: &GradedWeb,
    legs: &[Diagram],
    extras: &[Vec<Cell>],
) -> Result<Vec<u8>, AllocError>
    ensures { IfOk result (λ v. v.items ≡ text_of (config_lines web.now (configuration legs.now (cells_of extras.now)))) }
{
    let mut text = String::new(alloc);
    put_config_title(&mut text)?;
    put_legs(&mut text, web.compact(), legs)?;
    put_corners(&mut text, extras)?;
    Ok(text.into_bytes())
}

#[tactic(auto, unfolding(tv_spec_text::specs::Lines::line_text))]
fn put_config_title(text: &mut String) -> Result<(), AllocError>
    ensures { OnOk result (string_bytes text.new ≡ string_bytes text.old ++ line_text config_title) }
{
    writeln!(text, "config")
}

fn put_legs(text: &mut String, edges: &[CompactEdge], legs: &[Diagram]) -> Result<(), AllocError>
    ensures { OnOk result (string_bytes text.new ≡
        string_bytes text.old ++ flat_map line_text (leg_lines edges.now legs.now)) }
{
    for k in 0..edges.len().min(legs.len()) {
        put_leg(text, edges[k], &legs[k])?;
    }
    Ok(())
}

fn put_leg(text: &mut String, edge: CompactEdge, diagram: &Diagram) -> Result<(), AllocError>
    ensures { OnOk result (string_bytes text.new ≡
        string_bytes text.old ++ flat_map line_text (leg_line edge diagram.now)) }
{
    let rows = diagram.rows();
    if rows.is_empty() {
        return Ok(());
    }
    put_edge(text, edge)?;
    end_with_rows(text, rows)?;
    Ok(())
}

fn put_edge(text: &mut String, edge: CompactEdge) -> Result<(), AllocError>
    ensures { OnOk result (string_bytes text.new ≡ string_bytes text.old ++ leg_front edge) }
{
    let CompactEdge { a, b, .. } = edge;
    write!(text, "leg {a} {b}")?;
    Ok(())
}

// A space and the row, for each row, and the end of the line.
fn end_with_rows(text: &mut String, rows: &[u32]) -> Result<(), AllocError>
    ensures { OnOk result (string_bytes text.new ≡ string_bytes text.old ++ (rows_spaced rows.now ++ 10 ∷ [])) }
{
    put_rows(text, rows)?;
    writeln!(text)?;
    Ok(())
}

fn put_rows(text: &mut String, rows: &[u32]) -> Result<(), AllocError>
    ensures { OnOk result (string_bytes text.new ≡ string_bytes text.old ++ rows_spaced rows.now) }
{
    for row in rows {
        write!(text, " {row}")?;
    }
    Ok(())
}

fn put_corners(text: &mut String, extras: &[Vec<Cell>]) -> Result<(), AllocError>
    ensures { OnOk result (string_bytes text.new ≡
        string_bytes text.old ++ flat_map line_text (box_lines 0 (cells_of extras.now))) }
{
    for t in 0..extras.len() {
        put_boxes(text, t, extras[t].as_slice())?;
    }
    Ok(())
}

fn put_boxes(text: &mut String, corner: usize, cells: &[Cell]) -> Result<(), AllocError>
    ensures { OnOk result (string_bytes text.new ≡
        string_bytes text.old ++ flat_map line_text (map (box_line corner) cells.now)) }
{
    for cell in cells {
        put_box(text, corner, *cell)?;
    }
    Ok(())
}

#[tactic(auto, unfolding(tv_spec_text::specs::Lines::line_text))]
fn put_box(text: &mut String, corner: usize, cell: Cell) -> Result<(), AllocError>
    ensures { OnOk result (string_bytes text.new ≡ string_bytes text.old ++ line_text (box_line corner cell)) }
{
    let Cell { x, y, z } = cell;
    writeln!(text, "box {corner} {x} {y} {z}")
}
