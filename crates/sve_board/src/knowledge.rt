//! What a seat of the board knows. Proofs alone speak of it: while the program runs, no value of these types is made.
use std::collections::LinkedList;

/// An entry of the log: a commit that was accepted.
#[derive(Clone, Copy)]
pub struct Entry {
    /// Whose commit it is. Clients count from 1.
    pub client: u32,
    /// Which of its client's commands it is.
    pub command: u32,
}

/// What a client knows.
pub struct ClientView {
    /// Which client it is, from 1.
    pub number: u64,
    /// The prefix of the log that it has seen.
    pub seen: LinkedList<Entry>,
    /// Its own entries in `seen`.
    pub mine: LinkedList<Entry>,
    /// The lengths of the log that it was told of, the first one first.
    pub looks: LinkedList<u64>,
    /// How many commits it has announced.
    pub raises: u64,
    /// What a note tells that was taken in and not met yet. It is empty between two calls.
    pub unmet: LinkedList<Entry>,
}

/// What the holder of the writer's seat knows.
pub struct WriterView {
    /// The whole log.
    pub log: LinkedList<Entry>,
    /// For each client a number that was read in its word, behind one for no client.
    pub known: LinkedList<u64>,
    /// How many seats there are, this one and those that were given away or spent among them.
    pub seats: u64,
    /// What those clients knew whose passes were handed back.
    pub returned: LinkedList<ClientView>,
}

/// What a seat knows.
pub enum View {
    Writer(WriterView),
    Client(ClientView),
    /// A note: the log as it was when the note was made.
    Note(LinkedList<Entry>),
    /// Its knowledge went into another seat's.
    Spent,
}
