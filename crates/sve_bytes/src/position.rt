ghost use Rattle.std.specs.Prelude.{◌≡◌, ◌<◌, ◌≤◌, ◌+◌, ◌^◌, length, count_by, reverse, not};
ghost use Rattle.std.specs.List.{prefix_len};
ghost use Rattle.sve_bytes.specs.LineColumn.{is_line_feed, line_at, column_at};

fn line_feeds(text: &[u8]) -> usize
    ensures count { result ≡ count_by is_line_feed text.now }
    ensures bound { result ≤ length text.now }
{
    text.iter().filter(|b| **b == b'\n').count()
}

fn bytes_in_last_line(text: &[u8]) -> usize
    ensures count { result ≡ prefix_len (λ b. not (is_line_feed b)) (reverse text.now) }
    ensures bound { result ≤ length text.now }
{
    text.iter().rev().take_while(|b| **b != b'\n').count()
}

/// The line and the column of the byte at `at`, both counted from 1 and columns in bytes (own). The end of the text
/// has them too. A line feed stands in the line that it ends, and a carriage return is a byte like any other.
pub fn line_col(text: &[u8], at: usize) -> (u32, u32)
    requires within { at ≤ length text.now }
    requires small { length text.now + 1 < 2 ^ 32 }
    ensures line { result.0 ≡ line_at text.now at }
    ensures column { result.1 ≡ column_at text.now at }
{
    let before = &text[..at];
    (
        line_feeds(before) as u32 + 1,
        bytes_in_last_line(before) as u32 + 1,
    )
}
