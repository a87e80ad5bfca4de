//! The lines of a text and the words of a line. Whether a line may stand in a file is not looked at here.

ghost use Rattle.std.specs.Prelude.{◌≡◌, ◌==◌, ℕ, length, map, IfOk};
ghost use Rattle.std.specs.List.{slice_split};
ghost use Rattle.std.specs.Str.Lines.{lines, strip_carriage_return};
ghost use Rattle.tv_spec_text.specs.Lines.{words};

use std::alloc::{AllocError, Global};

/// The words of a line: its parts between spaces. It errs only for want of memory.
pub fn words_of<'a>(alloc: Global, line: &'a [u8]) -> Result<Vec<&'a [u8]>, AllocError>
    ensures { IfOk result (λ v. map (λ w. w.now) v.items ≡ words line.now) }
{
    line.split(|byte| *byte == b' ').collect(alloc)
}

// The parts between line feeds.
fn parts<'a>(alloc: Global, bytes: &'a [u8]) -> Result<Vec<&'a [u8]>, AllocError>
    ensures { IfOk result (λ v. map (λ w. w.now) v.items ≡ slice_split (λ b. b == 10) bytes.now) }
{
    bytes.split(|byte| *byte == b'\n').collect(alloc)
}

fn without_return(part: &[u8]) -> &[u8]
    ensures { result.now ≡ strip_carriage_return part.now }
{
    match part {
        [front @ .., b'\r'] => front,
        _ => part,
    }
}

/// The lines, each of which ends with LF, with CR LF, or with the end of the bytes. It errs only for want of memory.
pub fn lines_of<'a>(alloc: Global, bytes: &'a [u8]) -> Result<Vec<&'a [u8]>, AllocError>
    ensures { IfOk result (λ v. map (λ w. w.now) v.items ≡ lines bytes.now) }
{
    let parts = parts(alloc, bytes)?;
    let mut lines = Vec::new(alloc);
    for (i, part) in parts.iter().enumerate() {
        if i + 1 < parts.len() {
            lines.push(without_return(part))?;
        } else if !part.is_empty() {
            lines.push(part)?;
        }
    }
    Ok(lines)
}
