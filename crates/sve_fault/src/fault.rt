ghost use Rattle.std.specs.Prelude.{◌≡◌, IfOk};
ghost use Rattle.sve_fault.specs.Faults.{argument_of, fault_at, fault_about, earlier, note_of};

use std::alloc::{AllocError, Global};
use sve_bytes::{BadName, Name, NoMemory};
use sve_diag::{Code, Note};

/// How many bytes of a name a diagnostic shows at most.
const MAX_ARGUMENT: usize = 1024;

/// What is wrong with a constant expression.
pub struct Fault {
    /// The token of the expression at which it stands, by which faults are ordered, from 0.
    pub token: u32,
    /// What is said of it.
    pub said: Said,
}

impl Drop for Fault {
    fn drop(self) {
        let Fault { token: _, said: _ } = self;
    }
}

/// What is said of a fault.
#[derive(Drop)]
pub enum Said {
    /// Nothing, since it is said elsewhere: a name has no value where its declaration has a diagnostic.
    Nothing,
    /// A diagnostic at the fault's token, in the chunk of the expression.
    Here {
        /// What it says.
        code: Code,
        /// What it says it of, for the codes that name something.
        arg: Option<Name>,
    },
    /// A diagnostic at another place, as in the text of a function that was called.
    Elsewhere(Note),
}

impl Fault {
    /// A fault with a code that names nothing.
    pub fn at(token: u32, code: Code) -> Fault
        ensures { result ≡ fault_at token code }
    {
        Fault {
            token,
            said: Said::Here { code, arg: None },
        }
    }

    /// A fault with a code that names a text: its first 1,024 bytes, and nothing where it is empty. It fails for want of
    /// memory alone.
    pub fn about(alloc: Global, token: u32, code: Code, text: &[u8]) -> Result<Fault, NoMemory>
        ensures { IfOk result (λ f. f ≡ fault_about token code text.now) }
    {
        let arg = argument(alloc, text)?;
        Ok(Fault {
            token,
            said: Said::Here { code, arg },
        })
    }

    /// The one of two that stands first in token order.
    pub fn first(self, other: Fault) -> Fault
        ensures { result ≡ earlier self other }
    {
        if self.token <= other.token {
            self
        } else {
            other
        }
    }

    /// The diagnostic of a fault in an expression of this file and chunk.
    pub fn note(self, file: &Name, chunk: u32) -> Result<Option<Note>, NoMemory>
        ensures { IfOk result (λ n. n ≡ note_of file.now chunk self) }
    {
        let Fault { token, said } = self;
        match said {
            Said::Nothing => Ok(None),
            Said::Here { code, arg } => Ok(Some(Note {
                file: file.copy()?,
                chunk,
                token,
                code,
                arg,
            })),
            Said::Elsewhere(note) => Ok(Some(note)),
        }
    }
}

/// The name that a text is, as a diagnostic shows it: its first 1,024 bytes, and none where it is empty.
///
/// # Errors
/// Only for want of memory.
#[tactic(auto, using(crate::proofs::Arguments::argument_is, crate::proofs::Arguments::end_of))]
pub fn argument(alloc: Global, text: &[u8]) -> Result<Option<Name>, NoMemory>
    ensures { IfOk result (λ n. n ≡ argument_of text.now) }
{
    if text.is_empty() {
        return Ok(None);
    }
    let end = MAX_ARGUMENT.min(text.len());
    match Name::of(alloc, &text[..end]) {
        Ok(name) => Ok(Some(name)),
        Err(BadName::NoMemory) => Err(AllocError),
        Err(BadName::Empty) => unreachable!(),
        Err(BadName::TooLong(_)) => unreachable!(),
    }
}
