use sve_bytes::List;
use sve_command::Command;
use sve_text::Files;

/// The most clients of a session (own).
pub const MAX_CLIENTS: usize = 16;

/// The most commands that the clients of a session have together (own).
pub const MAX_COMMANDS: usize = 20_000;

/// The most edits of one commit (own).
pub const MAX_EDITS: usize = 256;

/// A session: the files before the first commit, and the commands of each client, client 1 first.
#[derive(Drop)]
pub struct Script {
    pub files: Files,
    pub clients: List<List<Command>>,
}

/// What a session has too much of, in the order in which the limits are tested.
#[derive(Clone, Copy)]
pub enum Which {
    /// The opening files; the number is how many there are.
    Files,
    /// The bytes of an opening file; the number is the length of the first that is too long.
    Bytes,
    /// The clients; the number is how many there are.
    Clients,
    /// The commands; the number is how many all clients have together.
    Commands,
    /// The edits of a commit; the number is how many the first commit has that has too many.
    Edits,
    /// The budget of an ask; the number is the first budget that is 0 or too great.
    Budget,
}

/// Why bytes are no session.
#[derive(Drop)]
pub enum BadSession {
    /// They are no JSON.
    NotJson,
    /// They are JSON, and at this path is the first value that is not as a session's should be. A path has `/` and the
    /// member's name, or its index from 0, for each step; the path of the whole is empty.
    Shape { path: List<u8> },
    /// They are of the form of a session, which is beyond a limit.
    Limit { which: Which, number: u64 },
    /// There was no memory to read them.
    NoMemory,
}
