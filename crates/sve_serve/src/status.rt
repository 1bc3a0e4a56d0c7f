ghost use Rattle.std.specs.Prelude.{◌≡◌, option_map};
ghost use Rattle.sve_serve.specs.ExitCodes.{exit_code, complaint_of};

/// How a run ends.
#[derive(Clone, Copy, PartialEq, Eq)]
pub enum Status {
    /// The whole report was written.
    Done,
    /// The words are of no stated form.
    Usage,
    /// The bytes are no session.
    BadSession,
    /// The source failed.
    ReadFault,
    /// The sink failed.
    WriteFault,
    /// The source gave more bytes than a session may have.
    TooLarge,
    /// There was no memory for the run.
    NoMemory,
}

/// The exit status with which the program tells its caller how a run ended: 0, or 2 to 7.
pub fn exit_code(status: Status) -> u8
    ensures { result ≡ exit_code status }
{
    match status {
        Status::Done => 0,
        Status::Usage => 2,
        Status::BadSession => 3,
        Status::ReadFault => 4,
        Status::WriteFault => 5,
        Status::TooLarge => 6,
        Status::NoMemory => 7,
    }
}

/// The line for standard error, without its line feed, where the output says nothing of how the run ended.
pub fn complaint(status: Status) -> Option<&'static str>
    ensures { option_map (λ line. line.now) result ≡ complaint_of status }
{
    match status {
        Status::ReadFault => Some("svserve: reading failed"),
        Status::WriteFault => Some("svserve: writing failed"),
        Status::NoMemory => Some("svserve: out of memory"),
        Status::Done | Status::Usage | Status::BadSession | Status::TooLarge => None,
    }
}
