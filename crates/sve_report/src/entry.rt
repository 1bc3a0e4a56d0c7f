/// A commit that was accepted. Clients and commands count from 1.
#[derive(Clone, Copy)]
pub struct Entry {
    pub client: u64,
    pub command: u64,
}
