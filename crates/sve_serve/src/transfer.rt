//! All bytes of a source, and all of a text to a sink.
ghost use Rattle.std.specs.Prelude.{◌≡◌, ℕ, ◌+◌, ◌≤◌, List, OnOk, OnErr, IfOk, IfSome, IsErrOf, length, take};
ghost use Rattle.sve_io.specs.Faults.{HasRisen};
ghost use Rattle.sve_io.specs.Moves.{Loses, Gains};

use std::alloc::{AllocError, Global};
use sve_io::{Failed, Got, Sink, Source};

/// The most bytes that a session may have (own).
pub const MAX_SESSION_LEN: usize = 16_777_216;

/// Why a source was not read to its end.
#[derive(Clone, Copy, PartialEq, Eq)]
pub enum ReadError {
    /// The source failed.
    Failed,
    /// It gave more bytes than a session may have.
    TooLarge,
    /// There was no memory for the bytes.
    NoMemory,
}

impl From<AllocError> for ReadError {
    ghost use Rattle.std.specs.Prelude.{◌≡◌};
    ghost use Rattle.sve_serve.specs.declared.transfer.ReadError.TheVariants.{NoMemory};

    ghost from_gives = { λ _ e. e ≡ NoMemory };

    fn from(_error: AllocError) -> ReadError {
        ReadError::NoMemory
    }
}

/// Reads all that the source has left, at most 4,096 bytes a call and never more than one byte above
/// the limit in all.
pub fn read_session<S: Source>(alloc: Global, source: &mut S) -> Result<Vec<u8>, ReadError>
    // All bytes of a source that has no more than the limit.
    ensures read { IfOk result (λ bytes. Loses (S.left source.old) (S.left source.new) bytes.items) }
    ensures all { IfOk result (λ bytes. IfSome (S.left source.old) (λ left. left ≡ bytes.items)) }
    ensures in_limit { IfOk result (λ bytes. length bytes.items ≤ MAX_SESSION_LEN) }

    // The byte above the limit was read, and no other after it.
    ensures too_large { IsErrOf result ReadError.TooLarge →
        (moved : List ℕ) × (length moved ≡ MAX_SESSION_LEN + 1) × Loses (S.left source.old) (S.left source.new) moved }

    // A fault of the source is the cause of Failed, and of nothing else.
    ensures failed { IsErrOf result ReadError.Failed → HasRisen (S.faults source.old) (S.faults source.new) }
    ensures failed_in_limit { IsErrOf result ReadError.Failed →
        (moved : List ℕ) × (length moved ≤ MAX_SESSION_LEN) × Loses (S.left source.old) (S.left source.new) moved }
    ensures no_fault { ¬ IsErrOf result ReadError.Failed → S.faults source.new ≡ S.faults source.old }
    ensures counts { S.faults source.old ≤ S.faults source.new }
    ensures at_most { (moved : List ℕ) × (length moved ≤ MAX_SESSION_LEN + 1) × Loses (S.left source.old) (S.left source.new) moved }
{
    let mut bytes = Vec::new(alloc);
    let mut buffer = [0u8; 4096];
    'reading: while bytes.len() <= MAX_SESSION_LEN {
        let room = (MAX_SESSION_LEN + 1 - bytes.len()).min(buffer.len());
        match source.read(&mut buffer[..room]) {
            Got::Bytes(count) => bytes.extend_from_slice(&buffer[..count])?,
            Got::End => return Ok(bytes),
            Got::Failed => return Err(ReadError::Failed),
        }
    }
    Err(ReadError::TooLarge)
}

/// Writes the whole text, as many bytes a call as the sink takes.
pub fn write_text<K: Sink>(sink: &mut K, text: &[u8]) -> Result<(), Failed>
    ensures whole { OnOk result (Gains (K.held sink.old) (K.held sink.new) text.now) }
    ensures no_fault { OnOk result (K.faults sink.new ≡ K.faults sink.old) }
    ensures part { OnErr result ((count : ℕ) × (count ≤ length text.now) × Gains (K.held sink.old) (K.held sink.new) (take count text.now)) }
    ensures cause { OnErr result (HasRisen (K.faults sink.old) (K.faults sink.new)) }
{
    let mut written = 0;
    'writing: while written < text.len() {
        let count = sink.write(&text[written..])?;
        written += count;
    }
    Ok(())
}
