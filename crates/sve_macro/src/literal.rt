ghost use Rattle.std.specs.Prelude.{◌≡◌, ◌≤◌, length, false};
ghost use Rattle.std.specs.Char.{is_ascii_graphic};
ghost use Rattle.std.specs.List.{prefix_len};
ghost use Rattle.sve_macro.specs.Literals.{string_rest, blank_length, escaped_rest};

use sve_bytes::is_white_space;

/// How many bytes of a string literal stand behind its opening quote: up to its closing quote, or,
/// where there is none, up to a line feed or the end (IEEE 1800-2017, 5.9).
pub fn string_len(behind_quote: &[u8]) -> usize
    ensures len { result ≡ string_rest false behind_quote.now }
    ensures within { result ≤ length behind_quote.now }
{
    let mut taken = false;
    for i in 0..behind_quote.len() {
        let byte = behind_quote[i];
        if taken {
            taken = false;
        } else if byte == b'"' {
            return i + 1;
        } else if byte == b'\n' {
            return i;
        } else {
            taken = byte == b'\\';
        }
    }
    behind_quote.len()
}

/// How many bytes of an escaped identifier stand behind its backslash, with the white space byte that
/// ends it, or 0 where the backslash begins none (IEEE 1800-2017, 5.6.1).
pub fn escaped_len(behind_backslash: &[u8]) -> usize
    ensures len { result ≡ escaped_rest behind_backslash.now }
    ensures within { result ≤ length behind_backslash.now }
{
    let len = graphic_len(behind_backslash);
    if len == 0 {
        return 0;
    }
    len + blank_len(&behind_backslash[len..])
}

/// How many bytes 0x21 to 0x7E stand first.
fn graphic_len(text: &[u8]) -> usize
    ensures len { result ≡ prefix_len is_ascii_graphic text.now }
    ensures within { result ≤ length text.now }
{
    text.iter()
        .take_while(|byte| byte.is_ascii_graphic())
        .count()
}

/// 1 where a white space byte stands first, else 0.
fn blank_len(text: &[u8]) -> usize
    ensures len { result ≡ blank_length text.now }
    ensures within { result ≤ length text.now }
{
    match text {
        [byte, ..] if is_white_space(*byte) => 1,
        _ => 0,
    }
}
