ghost use Rattle.std.specs.Prelude.{◌≡◌, ◌≤◌, IsTrue};
ghost use Rattle.sve_origin.specs.Segments.{next_of, IsNextOfLast, Cover};

use crate::Segment;
use sve_bytes::Name;

/// Whether bytes at a place go on from a segment, of which the text has the bytes up to `end`.
fn goes_on(segment: &Segment, end: usize, file: &Name, offset: u32, copied: bool) -> bool
    requires { segment.now.from ≤ end }
    ensures { IsTrue result → record { file = file.now; offset = offset; copied = copied } ≡ next_of segment.now end }
{
    let passed = if segment.copied {
        end - segment.from as usize
    } else {
        0
    };
    segment.copied == copied
        && segment.place.offset <= offset
        && (offset - segment.place.offset) as usize == passed
        && segment.place.file.bytes() == file.bytes()
}

/// Whether they go on from the last segment of a text.
pub fn last_goes_on(
    segments: &[Segment],
    end: usize,
    file: &Name,
    offset: u32,
    copied: bool,
) -> bool
    requires { Cover segments.now end }
    ensures { IsTrue result
        → IsNextOfLast segments.now end (record { file = file.now; offset = offset; copied = copied }) }
{
    if segments.is_empty() {
        return false;
    }
    let last = &segments[segments.len() - 1];
    goes_on(last, end, file, offset, copied)
}
