ghost use Rattle.std.specs.Prelude.{◌≡◌, ◌≤◌, length, drop};
ghost use Rattle.sve_directive.specs.Bytes.{begins_with, line_length, identifier, trimmed};

use sve_bytes::identifier_len;

/// The text from its byte n on.
pub fn past(text: &[u8], n: usize) -> &[u8]
    requires { n ≤ length text.now }
    ensures { result.now ≡ drop n text.now }
{
    &text[n..]
}

/// Whether the text begins with this byte.
pub fn begins(text: &[u8], byte: u8) -> bool
    ensures { result ≡ begins_with byte text.now }
{
    match text {
        [] => false,
        [first, ..] => *first == byte,
    }
}

/// How many bytes the line that begins here has, without its line feed.
pub fn line_len(text: &[u8]) -> usize
    ensures value { result ≡ line_length text.now }
    ensures within { result ≤ length text.now }
{
    text.iter().take_while(|b| **b != b'\n').count()
}

/// The identifier that begins here, or no byte.
pub fn identifier_at(text: &[u8]) -> &[u8]
    ensures { result.now ≡ identifier text.now }
{
    &text[..identifier_len(text)]
}

/// The text without the white space at both of its ends.
pub fn trim(text: &[u8]) -> &[u8]
    ensures { result.now ≡ trimmed text.now }
{
    text.trim_ascii()
}
