// Standard input and output as source and sink: a few lines that count errors. Of the bytes that
// they carry no contract can tell.
ghost use Rattle.std.specs.Prelude.{◌≡◌, ◌≤◌, IfOk, OnOk, OnErr, length};
ghost use Rattle.sve_io.specs.Faults.{counted, HasRisen};
ghost use Rattle.sve_io.specs.Moves.{Advances};
ghost use Rattle.sve_io.specs.Reading.{IfBytes, OnFailed, UnlessFailed};

use super::reading::{Got, Source};
use super::writing::{Failed, Sink};
use std::io;
use std::io::{ErrorKind, Read, Stdin, Stdout, Write};
use std::marker::Model;

/// Standard input. A read that was interrupted is tried again; any other error is a fault.
/// Contracts see it as its count of faults.
#[derive(Drop)]
pub struct RealIn {
    input: Stdin,
    faults: u64,
}

impl Model for RealIn {
    ghost use Rattle.std.specs.Prelude.{ℕ};

    ghost Value = { ℕ };

    ghost view = { λ s. s.faults };
}

impl RealIn {
    /// Standard input as the runtime hands it out, with no fault counted yet.
    pub fn new(input: Stdin) -> RealIn
        ensures { result ≡ 0 }
    {
        RealIn { input, faults: 0 }
    }
}

impl Source for RealIn {
    ghost use Rattle.std.specs.Prelude.{None};

    ghost left = { λ _. None };

    ghost faults = { λ s. s };

    fn read(&mut self, into: &mut [u8]) -> Got
        // An error raises the count by one, and nothing else does.
        ensures fault { OnFailed result (self.new ≡ counted self.old) }
        ensures no_fault { UnlessFailed result (self.new ≡ self.old) }

        // As any source: it goes on, and no count falls.
        ensures size { IfBytes result (λ count. Advances count (length into.old)) }
        ensures counts { self.old ≤ self.new }
        ensures cause { OnFailed result (HasRisen self.old self.new) }
    {
        read_counting(&mut self.input, &mut self.faults, into)
    }
}

/// Standard output. A write that was interrupted is tried again; any other error is a fault, and so
/// is a write that takes no byte of a piece. Contracts see it as its count of faults.
#[derive(Drop)]
pub struct RealOut {
    output: Stdout,
    faults: u64,
}

impl Model for RealOut {
    ghost use Rattle.std.specs.Prelude.{ℕ};

    ghost Value = { ℕ };

    ghost view = { λ s. s.faults };
}

impl RealOut {
    /// Standard output as the runtime hands it out, with no fault counted yet.
    pub fn new(output: Stdout) -> RealOut
        ensures { result ≡ 0 }
    {
        RealOut { output, faults: 0 }
    }
}

impl Sink for RealOut {
    ghost use Rattle.std.specs.Prelude.{None};

    ghost held = { λ _. None };

    ghost faults = { λ s. s };

    fn write(&mut self, piece: &[u8]) -> Result<usize, Failed>
        // An error raises the count by one, and nothing else does.
        ensures fault { OnErr result (self.new ≡ counted self.old) }
        ensures no_fault { OnOk result (self.new ≡ self.old) }

        // As any sink: it goes on, and no count falls.
        ensures size { IfOk result (λ count. Advances count (length piece.now)) }
        ensures counts { self.old ≤ self.new }
        ensures cause { OnErr result (HasRisen self.old self.new) }
    {
        write_counting(&mut self.output, &mut self.faults, piece)
    }
}

// One read, which counts an error as a fault. A buffer without room is not handed on, since no bytes
// would then read as the end.
fn read_counting<R: Read>(input: &mut R, faults: &mut u64, into: &mut [u8]) -> Got
    ensures size { IfBytes result (λ count. Advances count (length into.old)) }
    ensures fault { OnFailed result (faults.new ≡ counted faults.old) }
    ensures no_fault { UnlessFailed result (faults.new ≡ faults.old) }
    ensures counts { faults.old ≤ faults.new }
{
    if into.is_empty() {
        return Got::Bytes(0);
    }
    match read_uninterrupted(input, into) {
        Ok(0) => Got::End,
        Ok(count) => Got::Bytes(count),
        Err(_) => {
            *faults = faults.saturating_add(1);
            Got::Failed
        }
    }
}

// One write, which counts an error as a fault, and a write that takes no byte.
fn write_counting<W: Write>(output: &mut W, faults: &mut u64, piece: &[u8]) -> Result<usize, Failed>
    ensures size { IfOk result (λ count. Advances count (length piece.now)) }
    ensures fault { OnErr result (faults.new ≡ counted faults.old) }
    ensures no_fault { OnOk result (faults.new ≡ faults.old) }
    ensures counts { faults.old ≤ faults.new }
{
    if piece.is_empty() {
        return Ok(0);
    }
    match write_uninterrupted(output, piece) {
        Ok(count) if count > 0 => Ok(count),
        _ => {
            *faults = faults.saturating_add(1);
            Err(Failed)
        }
    }
}

// Reads again while the read was interrupted. No program is interrupted so often that the loop ends.
fn read_uninterrupted<R: Read>(input: &mut R, into: &mut [u8]) -> io::Result<usize>
    ensures { IfOk result (λ count. count ≤ length into.new) }
{
    for _ in 0..u64::MAX {
        match input.read(into) {
            Err(error) if error.kind() == ErrorKind::Interrupted => {}
            answer => return answer,
        }
    }
    input.read(into)
}

// Writes again while the write was interrupted, with the same bound.
fn write_uninterrupted<W: Write>(output: &mut W, piece: &[u8]) -> io::Result<usize>
    ensures { IfOk result (λ count. count ≤ length piece.now) }
{
    for _ in 0..u64::MAX {
        match output.write(piece) {
            Err(error) if error.kind() == ErrorKind::Interrupted => {}
            answer => return answer,
        }
    }
    output.write(piece)
}

#[cfg(test)]
mod tests {
    // The streams of the system are not interrupted at will, so a stream of the tests' own shows what
    // comes of it.
    use super::*;

    // An end that is interrupted, moves a byte, is interrupted, fails, and then moves none.
    #[derive(Drop)]
    struct Fake {
        calls: u8,
    }

    impl Fake {
        fn next(&mut self) -> io::Result<usize>
            ensures { IfOk result (λ count. count ≤ 1) }
        {
            self.calls = self.calls.saturating_add(1);
            match self.calls {
                1 | 3 => Err(ErrorKind::Interrupted.into()),
                2 => Ok(1),
                4 => Err(ErrorKind::PermissionDenied.into()),
                _ => Ok(0),
            }
        }
    }

    impl Read for Fake {
        fn read(&mut self, into: &mut [u8]) -> io::Result<usize> {
            Ok(self.next()?.min(into.len()))
        }
    }

    impl Write for Fake {
        fn write(&mut self, piece: &[u8]) -> io::Result<usize> {
            Ok(self.next()?.min(piece.len()))
        }

        fn flush(&mut self) -> io::Result<()> {
            Ok(())
        }
    }

    #[test]
    fn reads_again_and_counts_errors(rt: HostRuntime) {
        let mut input = Fake { calls: 0 };
        let mut faults = u64::MAX - 1;
        let table = [
            (0, Got::Bytes(0), u64::MAX - 1),
            (2, Got::Bytes(1), u64::MAX - 1),
            (2, Got::Failed, u64::MAX),
            (2, Got::End, u64::MAX),
        ];
        for (room, answer, count) in table {
            let mut buffer = *b"..";
            assert!(rt; room <= buffer.len());
            assert_eq!(rt;
                read_counting(&mut input, &mut faults, &mut buffer[..room]),
                answer
            );
            assert_eq!(rt; faults, count);
        }
    }

    #[test]
    fn writes_again_and_counts_errors(rt: HostRuntime) {
        let mut output = Fake { calls: 0 };
        let mut faults = u64::MAX - 1;
        let table = [
            ("", Ok(0), u64::MAX - 1),
            ("ab", Ok(1), u64::MAX - 1),
            ("b", Err(Failed), u64::MAX),
            ("b", Err(Failed), u64::MAX),
        ];
        for (piece, answer, count) in table {
            assert_eq!(rt;
                write_counting(&mut output, &mut faults, piece.as_bytes()),
                answer
            );
            assert_eq!(rt; faults, count);
        }
    }
}
