//! The bytes that stand between tokens and in identifiers.
ghost use Rattle.std.specs.Prelude.{◌≡◌, ◌≤◌, length};
ghost use Rattle.std.specs.List.{prefix_len};
ghost use Rattle.sve_bytes.specs.Bytes.{is_white_space, begins_identifier, continues_identifier, identifier_length};

/// Whether the byte is white space: a space, a tab, a line feed, a form feed (IEEE 1800-2017, 5.3)
/// or, own, a carriage return.
pub fn is_white_space(byte: u8) -> bool
    ensures { result ≡ is_white_space byte }
{
    byte.is_ascii_whitespace()
}

/// Whether a simple identifier may begin with the byte: a letter or `_` (IEEE 1800-2017, 5.6).
pub fn begins_identifier(byte: u8) -> bool
    ensures { result ≡ begins_identifier byte }
{
    byte.is_ascii_alphabetic() || byte == b'_'
}

/// Whether a simple identifier may go on with the byte: a letter, a digit, `_` or `$` (IEEE 1800-2017, 5.6).
pub fn continues_identifier(byte: u8) -> bool
    ensures { result ≡ continues_identifier byte }
{
    byte.is_ascii_alphanumeric() || byte == b'_' || byte == b'$'
}

/// How many bytes of white space the text begins with (IEEE 1800-2017, 5.3).
pub fn white_space_len(text: &[u8]) -> usize
    ensures value { result ≡ prefix_len is_white_space text.now }
    ensures within { result ≤ length text.now }
{
    text.iter().take_while(|b| is_white_space(**b)).count()
}

/// How many bytes with which an identifier may go on the text begins with: of an identifier, those behind
/// its first byte (IEEE 1800-2017, 5.6).
pub fn identifier_rest_len(text: &[u8]) -> usize
    ensures value { result ≡ prefix_len continues_identifier text.now }
    ensures within { result ≤ length text.now }
{
    text.iter()
        .take_while(|b| continues_identifier(**b))
        .count()
}

/// How many bytes the identifier or keyword that the text begins with has, or 0 where it begins with none
/// (IEEE 1800-2017, 5.6).
pub fn identifier_len(text: &[u8]) -> usize
    ensures value { result ≡ identifier_length text.now }
    ensures within { result ≤ length text.now }
{
    match text {
        [first, rest @ ..] if begins_identifier(*first) => 1 + identifier_rest_len(rest),
        _ => 0,
    }
}
