ghost use Rattle.std.specs.Prelude.{◌≡◌, length};
ghost use Rattle.std.specs.List.{list_all};
ghost use Rattle.sve_bytes.specs.FileName.{may_stand_in_file_name, is_file_name_of};

/// The greatest length of a file's name, in bytes (own).
const MAX_FILE_NAME_LEN: usize = 255;

fn may_stand(byte: u8) -> bool
    ensures { result ≡ may_stand_in_file_name byte }
{
    byte.is_ascii_alphanumeric() || byte == b'_' || byte == b'-' || byte == b'.' || byte == b'/'
}

fn all_may_stand(bytes: &[u8]) -> bool
    ensures { result ≡ list_all may_stand_in_file_name bytes.now }
{
    bytes.iter().all(|b| may_stand(*b))
}

/// Whether these bytes may name a file: 1 to 255 of them, each a letter, a digit, `_`, `-`, `.` or `/` (own).
pub fn is_file_name(bytes: &[u8]) -> bool
    ensures { result ≡ is_file_name_of bytes.now }
{
    1 <= bytes.len() && bytes.len() <= MAX_FILE_NAME_LEN && all_may_stand(bytes)
}
