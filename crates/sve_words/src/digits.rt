//! Numbers as words of the command line write them.
ghost use Rattle.std.specs.Prelude.{◌≡◌};
ghost use Rattle.sve_words.specs.Words.{number_to};

use itoa::Buffer;

/// The most steps of elaboration that an ask may be given (own).
pub const MAX_BUDGET: u32 = 100_000_000;

/// The most modules that a generated session may have beside its top (own).
pub const MAX_MADE: u32 = 2_000;

/// The number that the text writes in decimal digits, without sign or leading zero, from 1 to the most. It takes no memory.
pub fn number(text: &str, most: u32) -> Option<u32>
    ensures { result ≡ number_to most text.now }
{
    let Ok(n) = text.parse::<u32>() else {
        return None;
    };
    // A text with a sign or a leading zero is not what the number is written as.
    if n >= 1 && n <= most && Buffer::new().format(n) == text {
        Some(n)
    } else {
        None
    }
}
