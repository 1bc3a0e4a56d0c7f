//! Offsets in a text with their lines and columns, found from one to the next, so that no byte is counted twice.
ghost use Rattle.std.specs.Prelude.{◌≡◌, ◌≤◌, ◌<◌, ◌+◌, ◌^◌, length};
ghost use Rattle.sve_listing.specs.Places.{IsSpotIn};

/// An offset in a text, and its line and its column, both from 1 and columns in bytes.
#[derive(Clone, Copy)]
pub(crate) struct Spot {
    pub(crate) at: usize,
    pub(crate) line: u32,
    pub(crate) column: u32,
}

/// The start of a text.
pub(crate) fn start(text: &[u8]) -> Spot
    ensures spot { IsSpotIn text.now result }
    ensures at { result.at ≡ 0 }
{
    let _ = text;
    Spot {
        at: 0,
        line: 1,
        column: 1,
    }
}

/// The spot behind one byte more. A line feed stands in the line that it ends.
#[tactic(auto, using(crate::proofs::Spots::behind_line_feed, crate::proofs::Spots::behind_other, crate::proofs::Spots::small_line, crate::proofs::Spots::small_column))]
fn behind(text: &[u8], spot: Spot) -> Spot
    requires here { IsSpotIn text.now spot }
    requires inside { spot.at < length text.now }
    requires small { length text.now + 1 < 2 ^ 32 }
    ensures spot { IsSpotIn text.now result }
    ensures at { result.at ≡ spot.at + 1 }
{
    if text[spot.at] == b'\n' {
        Spot {
            at: spot.at + 1,
            line: spot.line + 1,
            column: 1,
        }
    } else {
        Spot {
            at: spot.at + 1,
            line: spot.line,
            column: spot.column + 1,
        }
    }
}

/// The spot at an offset that is not in front of this one.
pub(crate) fn moved(text: &[u8], from: Spot, to: usize) -> Spot
    requires here { IsSpotIn text.now from }
    requires forth { from.at ≤ to }
    requires within { to ≤ length text.now }
    requires small { length text.now + 1 < 2 ^ 32 }
    ensures spot { IsSpotIn text.now result }
    ensures at { result.at ≡ to }
{
    let mut spot = from;
    'bytes: for at in from.at..to {
        spot = behind(text, spot);
    }
    spot
}
