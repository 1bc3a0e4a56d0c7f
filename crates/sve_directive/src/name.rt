ghost use Rattle.std.specs.Prelude.{◌≡◌, ◌+◌, ◌<◌, ◌≤◌, ℕ, length, drop, take, IfOk, IfSome, Some, None};
ghost use Rattle.sve_directive.specs.Bytes.{identifier};
ghost use Rattle.sve_directive.specs.Define.{is_name, argument, argument_end, argument_of, name_of, macro_name_of, macro_argument_of};
ghost use Rattle.sve_directive.specs.Directives.{cut};

use crate::bytes::{identifier_at, past};
use crate::directive::MacroName;
use crate::pieces::gap_len;
use std::alloc::{AllocError, Global};
use sve_bytes::{BadName, Name, NoMemory, identifier_len};

/// These bytes as a name, if they are 1 to 1,024.
pub fn name_of_bytes(alloc: Global, bytes: &[u8]) -> Result<Option<Name>, NoMemory>
    ensures { IfOk result (λ o. o ≡ name_of bytes.now) }
{
    match Name::of(alloc, bytes) {
        Ok(name) => Ok(Some(name)),
        Err(BadName::NoMemory) => Err(AllocError),
        Err(BadName::Empty) => Ok(None),
        Err(BadName::TooLong(_)) => Ok(None),
    }
}

/// The first 1,024 bytes, if there is one.
pub fn cut_name(alloc: Global, bytes: &[u8]) -> Result<Option<Name>, NoMemory>
    ensures { IfOk result (λ o. o ≡ cut bytes.now) }
{
    name_of_bytes(alloc, &bytes[..bytes.len().min(1024)])
}

/// The identifier that is the next part.
pub fn argument_at(text: &[u8]) -> &[u8]
    ensures { result.now ≡ argument text.now }
{
    identifier_at(past(text, gap_len(text)))
}

/// The place after it.
pub fn argument_stop(text: &[u8]) -> usize
    ensures value { result ≡ argument_end text.now }
    ensures within { result ≤ length text.now }
{
    let gap = gap_len(text);
    gap + identifier_len(past(text, gap))
}

/// The name that is the next part, and the place after it.
pub fn read_argument(alloc: Global, text: &[u8]) -> Result<Option<(Name, usize)>, NoMemory>
    ensures value { IfOk result (λ o. o ≡ argument_of text.now) }
    ensures within { IfOk result (λ o. IfSome o (λ a. a.1 ≤ length text.now)) }
{
    match name_of_bytes(alloc, argument_at(text))? {
        Some(name) => Ok(Some((name, argument_stop(text)))),
        None => Ok(None),
    }
}

/// The name of a macro, if there is a byte.
fn macro_name(alloc: Global, bytes: &[u8]) -> Result<Option<MacroName>, NoMemory>
    ensures { IfOk result (λ o. o ≡ macro_name_of bytes.now) }
{
    match Name::of(alloc, bytes) {
        Ok(name) => Ok(Some(MacroName::Name(name))),
        Err(BadName::NoMemory) => Err(AllocError),
        Err(BadName::Empty) => Ok(None),
        Err(BadName::TooLong(_)) => Ok(Some(MacroName::TooLong)),
    }
}

/// The name of a macro that is the next part, and the place after it.
pub fn read_macro_name(alloc: Global, text: &[u8]) -> Result<Option<(MacroName, usize)>, NoMemory>
    ensures value { IfOk result (λ o. o ≡ macro_argument_of text.now) }
    ensures within { IfOk result (λ o. IfSome o (λ a. a.1 ≤ length text.now)) }
{
    match macro_name(alloc, argument_at(text))? {
        Some(name) => Ok(Some((name, argument_stop(text)))),
        None => Ok(None),
    }
}
