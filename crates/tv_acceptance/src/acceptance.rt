//! Bytes as a file that the program takes, and the web of that file. What is computed of the web is not looked at here.

ghost use Rattle.std.specs.Prelude.{◌≡◌, length, vec_len, MatchResult};
ghost use Rattle.std.specs.List.{AllByRecursion};
ghost use Rattle.tv_lattice.specs.Limits.{IsHeight};
ghost use Rattle.tv_triangulation.specs.Faults.{PassesChecks};
ghost use Rattle.tv_web.specs.Built.{bare_web};
ghost use Rattle.tv_degrees.specs.Edges.{with_heights};
ghost use Rattle.tv_spec_plane.specs.Graded.{IsGraded};
ghost use Rattle.tv_spec_json.specs.Files.{is_json};
ghost use Rattle.tv_acceptance.specs.Acceptance.{IsFile, IsAccepted, IsSound, IsUnsound, IsLowEdge};
ghost use Rattle.tv_acceptance.specs.Rejections.{IsFileFault, IsRefused};

use std::alloc::Global;
use tv_degrees::fault::DegreeFault;
use tv_degrees::grade::{GradedWeb, grade};
use tv_json::file::read_json;
use tv_lattice::fault::{FileFault, InputError};
use tv_lattice::file::FileData;
use tv_text::file::read_file;
use tv_triangulation::Triangulation;
use tv_triangulation::triangulate::triangulate;
use tv_web::web::build_web;

/// The web of the file that the bytes spell, with its triangles turned counter-clockwise. Bytes that begin with `{`, a space, a
/// tab, LF or CR are taken as JSON, all others as a text. The checks come in the order: too long, the form, the limits, the
/// points and triangles, the number of heights, the degrees.
pub fn accept(alloc: Global, bytes: &[u8]) -> Result<GradedWeb, InputError>
    ensures { MatchResult result (IsAccepted bytes.now) (IsRefused bytes.now) }
{
    match file_of(alloc, bytes) {
        Ok(file) => web_of(alloc, file),
        Err(error) => Err(error),
    }
}

fn file_of(alloc: Global, bytes: &[u8]) -> Result<FileData, InputError>
    ensures { MatchResult result (IsFile bytes.now) (IsFileFault bytes.now) }
{
    if is_json(bytes) {
        read_json(alloc, bytes)
    } else {
        read_file(alloc, bytes)
    }
}

fn is_json(bytes: &[u8]) -> bool
    ensures { result ≡ is_json bytes.now }
{
    match bytes.first() {
        Some(byte) => matches!(*byte, b'{' | b' ' | b'\t' | b'\n' | b'\r'),
        None => false,
    }
}

/// The web of a file, or the first check of points, triangles, heights and degrees that fails.
pub fn web_of(alloc: Global, file: FileData) -> Result<GradedWeb, InputError>
    ensures { MatchResult result (IsSound file) (IsUnsound file) }
{
    match triangulate(alloc, &file.points, &file.triangles) {
        Ok(triangulation) => with_heights(alloc, file, triangulation),
        Err(error) => Err(error),
    }
}

fn with_heights(
    alloc: Global,
    file: FileData,
    triangulation: Triangulation,
) -> Result<GradedWeb, InputError>
    requires { PassesChecks file.points file.triangles triangulation }
    ensures { MatchResult result (IsSound file) (IsUnsound file) }
{
    if file.heights.len() != file.points.len() {
        return Err(InputError::Fault(FileFault::HeightCount(file.heights.len() as u64)));
    }
    graded(alloc, triangulation, file.heights)
}

fn graded(
    alloc: Global,
    triangulation: Triangulation,
    heights: Vec<i64>,
) -> Result<GradedWeb, InputError>
    requires one_each { vec_len heights ≡ length triangulation.points }
    requires small { AllByRecursion IsHeight heights.items }
    ensures { let web = with_heights (bare_web triangulation.points triangulation.triangles) heights.items in MatchResult result (λ w. (w ≡ web) × IsGraded w) (IsLowEdge web) }
{
    let web = build_web(alloc, triangulation)?;
    match grade(alloc, web, heights) {
        Ok(graded) => Ok(graded),
        Err(DegreeFault::Degree { a, b, degree }) => Err(InputError::Fault(FileFault::Degree(
            a, b, degree,
        ))),
        Err(DegreeFault::Memory) => Err(InputError::Memory),
    }
}
