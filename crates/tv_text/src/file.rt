//! A file as text. How numbers and words are spelled is the concern of the modules below.

ghost use Rattle.std.specs.Prelude.{◌≡◌, ◌≤◌, ◌<◌, ◌+◌, suc, length, map, MatchResult};
ghost use Rattle.tv_spec_text.specs.Lines.{words};
ghost use Rattle.tv_spec_text.specs.Files.{Spells};
ghost use Rattle.tv_text.specs.Faults.{IsText, IsTextFault, IsLineFault};
ghost use Rattle.tv_text.specs.Rows.{texts};

use crate::draft::Draft;
use crate::lines::{lines_of, words_of};
use std::alloc::Global;
use tv_lattice::excess::limits;
use tv_lattice::fault::{FileFault, InputError};
use tv_lattice::file::{FileData, RawFile};
use tv_spec_plane::limits::MOST_BYTES;

/// The file that the bytes spell, whatever their first byte is. They are refused where they are more than `MOST_BYTES`,
/// else at the first line with which no file goes on (after the last line, where they end too early), else by the
/// first limit that the file passes. Want of memory may come at any time after the bytes are counted.
pub fn read_file(alloc: Global, bytes: &[u8]) -> Result<FileData, InputError>
    ensures { MatchResult result (IsText bytes.now) (IsTextFault bytes.now) }
{
    if bytes.len() > MOST_BYTES {
        return Err(InputError::Fault(FileFault::TooLong));
    }
    let lines = lines_of(alloc, bytes)?;
    let file = read_lines(alloc, &lines)?;
    limits(alloc, file)
}

fn read_lines(alloc: Global, lines: &[&[u8]]) -> Result<RawFile, InputError>
    requires { length lines.now ≤ MOST_BYTES + 1 }
    ensures { MatchResult result (Spells (map words (texts lines.now))) (IsLineFault (map words (texts lines.now))) }
{
    let mut draft = Draft::new(alloc);
    for (k, line) in lines.iter().enumerate() {
        let words = words_of(alloc, line)?;
        if !draft.step(alloc, &words)? {
            return Err(bad_line(k));
        }
    }
    if !draft.is_done() {
        return Err(bad_line(lines.len()));
    }
    Ok(draft.file())
}

fn bad_line(place: usize) -> InputError
    requires { place ≤ MOST_BYTES + 1 }
    ensures { result ≡ InputError.Fault (FileFault.Line (suc place)) }
{
    InputError::Fault(FileFault::Line(place as u32 + 1))
}

#[cfg(test)]
mod tests {
    use super::*;
    use std::test::Fail;

    const CONIFOLD: &str =
        "tv 1\npoint 0 0\npoint 1 0\npoint 1 1\npoint 0 1\ntriangle 0 1 2\ntriangle 0 2 3\nheights 0 1 0 0\nend\n";

    const WITH_RETURNS: &str =
        "tv 1\r\npoint 0 0\r\npoint 1 0\r\npoint 1 1\r\npoint 0 1\r\ntriangle 0 1 2\r\ntriangle 0 2 3\r\nheights 0 1 0 0\r\nend\r\n";

    const WITHOUT_LAST_FEED: &str =
        "tv 1\npoint 0 0\npoint 1 0\npoint 1 1\npoint 0 1\ntriangle 0 1 2\ntriangle 0 2 3\nheights 0 1 0 0\nend";

    // The conifold's square, its two triangles and its heights.
    fn is_conifold(file: &FileData) -> bool {
        file.points.len() == 4
            && file.points[2].x() == 1
            && file.points[2].y() == 1
            && file.points[3].x() == 0
            && file.triangles.len() == 2
            && file.triangles[1].c == 3
            && file.heights.as_slice() == [0, 1, 0, 0].as_slice()
    }

    fn spells_conifold(alloc: Global, text: &str) -> bool {
        match read_file(alloc, text.as_bytes()) {
            Ok(file) => is_conifold(&file),
            Err(_) => false,
        }
    }

    #[test]
    fn reads_the_conifold(rt: HostRuntime) {
        assert!(rt; spells_conifold(rt.alloc(), CONIFOLD));
        assert!(rt; spells_conifold(rt.alloc(), WITH_RETURNS));
        assert!(rt; spells_conifold(rt.alloc(), WITHOUT_LAST_FEED));
    }

    fn is_refused(alloc: Global, bytes: &[u8], want: FileFault) -> bool {
        match read_file(alloc, bytes) {
            Err(InputError::Fault(fault)) => fault == want,
            _ => false,
        }
    }

    const PAST_ASCII: &[u8] = b"tv 1\npoint 0 0\npoint 0 \xc8\nheights\nend\n";

    #[test]
    fn names_a_byte_past_ascii(rt: HostRuntime) {
        assert!(rt; is_refused(rt.alloc(), PAST_ASCII, FileFault::Line(3)));
    }

    #[test]
    fn counts_the_bytes(rt: HostRuntime) -> Result<(), Fail> {
        let most = vec![in rt.alloc(); b' '; MOST_BYTES]?;
        assert!(rt; is_refused(rt.alloc(), &most, FileFault::Line(1)));
        let more = vec![in rt.alloc(); b' '; MOST_BYTES + 1]?;
        assert!(rt; is_refused(rt.alloc(), &more, FileFault::TooLong));
        Ok(())
    }
}
