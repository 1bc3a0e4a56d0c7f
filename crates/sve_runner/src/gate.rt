//! Places at which a run may be held.

/// A place in an ask of a client. Clients and commands count from 1.
#[derive(Clone, Copy, PartialEq, Eq)]
pub enum Point {
    /// The ask has its snapshot, and nothing of it is computed yet.
    Before { client: u32, command: u32 },
    /// The ask has its outcome, and its snapshot is not given back yet.
    After { client: u32, command: u32 },
}

/// Somebody who is told of each place that an ask comes to, and may hold the client there. It has no say in what the
/// client is told.
pub trait Gate {
    /// The client of this ask has come to this place, and goes on once the call returns.
    fn at(&self, point: Point);
}

/// A gate that holds nobody.
#[derive(Clone, Copy)]
pub struct NoGate;

impl Gate for NoGate {
    fn at(&self, _point: Point) {}
}
