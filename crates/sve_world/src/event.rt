//! What may happen in a world.
use sve_ask::Fresh;
use sve_bytes::List;
use sve_store::Kinds;
use sve_text::{Edit, Mode};

/// One event of a world, by a client, with queries of `Q` and memos in an `F`. Clients and commands count from 1.
#[derive(Drop)]
pub enum EventOf<Q, F> {
    /// A commit that is accepted.
    Commit {
        client: u32,
        command: u32,
        edits: List<Edit>,
    },
    /// A commit that is refused.
    Refuse {
        client: u32,
        command: u32,
        edits: List<Edit>,
    },
    /// The client takes a snapshot of the newest revision.
    Begin {
        client: u32,
    },
    /// The client learns the length of the history.
    Look {
        client: u32,
    },
    /// The client's snapshot is asked. Where a later revision was looked up since it began, the ask may be cancelled.
    Answer {
        client: u32,
        command: u32,
        query: Q,
        budget: u32,
        mode: Mode,
        newer: Option<u64>,
    },
    /// The client gives its snapshot back, with the memos that were made or verified at it.
    Publish {
        client: u32,
        fresh: F,
    },
}

/// One event of a world with the kinds `K`.
pub type Event<K> = EventOf<<K as Kinds>::Query, Fresh<K>>;
