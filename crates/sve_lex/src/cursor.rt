ghost use Rattle.std.specs.Prelude.{◌≡◌, ℕ, ◌+◌, ◌-◌, ◌<◌, ◌^◌, ◌&&◌, IsTrue, length, drop};
ghost use Rattle.sve_origin.specs.Origins.{first, next};
ghost use Rattle.sve_lex.specs.Tokens.{follows};
ghost use Rattle.sve_lex.specs.Spots.{file_at, origin_at, spot_of, steps, goes_on_for, IsBefore};

use sve_origin::Segment;

/// A byte of an expanded text, and where it comes from.
#[derive(Clone, Copy)]
pub struct Cursor {
    /// How many bytes stand before it.
    pub at: usize,
    /// The number of its segment, from 0.
    pub segment: usize,
    /// The offset in the file of its segment.
    pub offset: u64,
    /// Whether it is copied from there.
    pub copied: bool,
}

/// The first byte.
pub fn start(segments: &[Segment]) -> Cursor
    ensures spot { spot_of result segments.now ≡ first segments.now }
    ensures at { result.at ≡ 0 }
    ensures segment { result.segment ≡ 0 }
    ensures offset { result.offset < 2 ^ 32 }
{
    if segments.is_empty() {
        return Cursor {
            at: 0,
            segment: 0,
            offset: 0,
            copied: false,
        };
    }
    let first = &segments[0];
    Cursor {
        at: 0,
        segment: 0,
        offset: first.place.offset as u64,
        copied: first.copied,
    }
}

/// The next byte.
#[tactic(auto, using(crate::proofs::Spots::file_is), unfolding(sve_origin::specs::Origins::next))]
fn step(segments: &[Segment], cursor: Cursor) -> Cursor
    requires at { cursor.at < 2 ^ 62 }
    requires segment { cursor.segment < length segments.now }
    requires offset { cursor.offset < 2 ^ 32 + cursor.at + 1 }
    ensures spot { spot_of result segments.now ≡ next (spot_of cursor segments.now) }
    ensures at { result.at ≡ cursor.at + 1 }
    ensures segment { result.segment < length segments.now }
    ensures offset { result.offset < 2 ^ 32 + result.at + 1 }
{
    let next = cursor.segment + 1;
    if next < segments.len() {
        let later = &segments[next];
        if later.from as usize == cursor.at + 1 {
            return Cursor {
                at: cursor.at + 1,
                segment: next,
                offset: later.place.offset as u64,
                copied: later.copied,
            };
        }
    }
    let by = if cursor.copied { 1 } else { 0 };
    Cursor {
        at: cursor.at + 1,
        segment: cursor.segment,
        offset: cursor.offset + by,
        copied: cursor.copied,
    }
}

fn file_at(segments: &[Segment], segment: usize) -> &[u8]
    requires { segment < length segments.now }
    ensures { result.now ≡ file_at segment segments.now }
{
    segments[segment].place.file.bytes()
}

/// Whether one byte follows another in one file, and both are copied from there.
fn follows(segments: &[Segment], from: &Cursor, to: &Cursor) -> bool
    requires from { from.now.segment < length segments.now }
    requires to { to.now.segment < length segments.now }
    requires offset { from.now.offset < 2 ^ 63 }
    ensures { result ≡ follows (origin_at from.now segments.now) (origin_at to.now segments.now) }
{
    from.copied
        && to.copied
        && file_at(segments, to.segment) == file_at(segments, from.segment)
        && to.offset == from.offset + 1
}

/// Whether no later segment begins within the next n bytes.
fn is_before(segments: &[Segment], from: &Cursor, n: usize) -> bool
    requires at { from.now.at + n < 2 ^ 62 }
    requires segment { from.now.segment < length segments.now }
    ensures { IsTrue result → IsBefore (from.now.at + n) (drop (from.now.segment + 1) segments.now) }
{
    let next = from.segment + 1;
    next >= segments.len() || from.at + n < segments[next].from as usize
}

/// The byte n further on, where no later segment begins before it.
fn jump(segments: &[Segment], from: Cursor, n: usize) -> Cursor
    requires at { from.at + n < 2 ^ 62 }
    requires offset { from.offset < 2 ^ 32 + from.at + 1 }
    requires before { IsBefore (from.at + n) (drop (from.segment + 1) segments.now) }
    ensures spot { spot_of result segments.now ≡ steps n (spot_of from segments.now) }
    ensures copied { from.copied ≡ (from.copied && goes_on_for n (spot_of from segments.now)) }
    ensures at { result.at ≡ from.at + n }
    ensures segment { result.segment ≡ from.segment }
    ensures offset { result.offset < 2 ^ 32 + result.at + 1 }
{
    let by = if from.copied { n as u64 } else { 0 };
    Cursor {
        at: from.at + n,
        segment: from.segment,
        offset: from.offset + by,
        copied: from.copied,
    }
}

/// The byte n further on, and whether all bytes up to it are copied from successive offsets.
fn creep(segments: &[Segment], from: Cursor, n: usize) -> (Cursor, bool)
    requires at { from.at + n < 2 ^ 62 }
    requires segment { from.segment < length segments.now }
    requires offset { from.offset < 2 ^ 32 + from.at + 1 }
    ensures spot { spot_of result.0 segments.now ≡ steps n (spot_of from segments.now) }
    ensures copied { result.1 ≡ (from.copied && goes_on_for n (spot_of from segments.now)) }
    ensures at { result.0.at ≡ from.at + n }
    ensures segment { result.0.segment < length segments.now }
    ensures offset { result.0.offset < 2 ^ 32 + result.0.at + 1 }
{
    let mut cursor = from;
    let mut copied = from.copied;
    let mut left = n;
    'bytes: while left > 0 {
        let next = step(segments, cursor);
        copied = copied && follows(segments, &cursor, &next);
        cursor = next;
        left -= 1;
    }
    (cursor, copied)
}

/// The byte behind a piece of n bytes, and whether these are copied from successive offsets of one file.
pub fn walk(segments: &[Segment], from: Cursor, n: usize) -> (Cursor, bool)
    requires filled { 0 < n }
    requires at { from.at + n < 2 ^ 62 }
    requires segment { from.segment < length segments.now }
    requires offset { from.offset < 2 ^ 32 + from.at + 1 }
    ensures spot { spot_of result.0 segments.now ≡ steps n (spot_of from segments.now) }
    ensures copied { result.1 ≡ (from.copied && goes_on_for (n - 1) (spot_of from segments.now)) }
    ensures at { result.0.at ≡ from.at + n }
    ensures segment { result.0.segment < length segments.now }
    ensures offset { result.0.offset < 2 ^ 32 + result.0.at + 1 }
{
    if is_before(segments, &from, n - 1) {
        let last = jump(segments, from, n - 1);
        return (step(segments, last), from.copied);
    }
    let (last, copied) = creep(segments, from, n - 1);
    (step(segments, last), copied)
}
