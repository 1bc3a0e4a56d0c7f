//! One client of a world.
ghost use Rattle.std.specs.Prelude.{◌≡◌, ◌<◌, ◌≤◌, ◌++◌, ◌∷◌, ◌↔◌, [], None, OnOk, IsTrue, All, Contains, length, drop, map, vec_len, vec_capacity};
ghost use Rattle.sve_history.specs.Histories.{IsRising};
ghost use Rattle.sve_seat.specs.Outcomes.{command_of};
ghost use Rattle.sve_seat.specs.Seats.{seat_value, new_seat, hearing, beginning, answered_at};

use crate::open::Open;
use crate::told::Told;
use std::alloc::Global;
use sve_bytes::NoMemory;

/// What one client knows.
#[derive(Drop)]
pub struct Seat<Q, S> {
    /// The largest revision that it was told of with an outcome.
    pub front: u64,
    /// The lengths of the history that it has seen, in order.
    pub looks: Vec<u64>,
    /// What its commands were told, in order.
    pub told: Vec<Told<Q>>,
    /// The snapshot that it holds.
    pub open: Option<Open<S>>,
}

impl<Q, S> Seat<Q, S> {
    /// A client that knows nothing. It takes no memory.
    pub fn new(alloc: Global) -> Seat<Q, S>
        ensures { seat_value result ≡ new_seat }
    {
        Seat {
            front: 0,
            looks: Vec::new(alloc),
            told: Vec::new(alloc),
            open: None,
        }
    }

    /// Makes room for one look more and for one outcome more.
    pub fn make_room(&mut self) -> Result<(), NoMemory>
        ensures same { seat_value self.new ≡ seat_value self.old }
        ensures looks { OnOk result (vec_len self.new.looks < vec_capacity self.new.looks) }
        ensures told { OnOk result (vec_len self.new.told < vec_capacity self.new.told) }
    {
        self.looks.reserve(1)?;
        self.told.reserve(1)?;
        Ok(())
    }

    /// Adds a look. It takes no memory, where there is room.
    pub fn look(&mut self, r: u64)
        requires room { vec_len self.old.looks < vec_capacity self.old.looks }
        ensures value { seat_value self.new ≡ record (seat_value self.old) { looks = (seat_value self.old).looks ++ r ∷ [] } }
        ensures told { self.new.told ≡ self.old.told }
    {
        self.looks.push_reserved(r);
    }

    /// Adds what a command was told. It takes no memory, where there is room.
    pub fn hear(&mut self, told: Told<Q>)
        requires room { vec_len self.old.told < vec_capacity self.old.told }
        ensures value { seat_value self.new ≡ hearing (seat_value self.old) told }
    {
        self.front = self.front.max(told.named());
        self.told.push_reserved(told);
    }

    /// Adds a look and what a commit was told. It takes no memory, where there is room.
    pub fn hear_commit(&mut self, r: u64, told: Told<Q>)
        requires looks { vec_len self.old.looks < vec_capacity self.old.looks }
        requires told { vec_len self.old.told < vec_capacity self.old.told }
        ensures { seat_value self.new ≡ hearing (record (seat_value self.old) { looks = (seat_value self.old).looks ++ r ∷ [] }) told }
    {
        self.look(r);
        self.hear(told);
    }

    /// Whether a command of this number comes behind all commands so far, whose numbers rise. It takes no memory.
    pub fn is_next(&self, command: u32) -> bool
        requires rising { IsRising (map command_of self.now.told.items) }
        ensures { IsTrue result ↔ All (λ earlier. earlier < command) (map command_of self.now.told.items) }
    {
        match self.told.last() {
            None => true,
            Some(told) => told.command() < command,
        }
    }

    /// Whether it has looked up this length of the history behind its first `begun` looks. It takes no memory.
    pub fn has_seen(&self, begun: usize, length: u64) -> bool
        requires within { begun ≤ vec_len self.now.looks }
        ensures { IsTrue result ↔ Contains (drop begun self.now.looks.items) length }
    {
        self.looks[begun..].contains(&length)
    }
}

impl<Q, S: Drop> Seat<Q, S> {
    /// Takes a snapshot of revision `r`, which joins the looks. It takes no memory, where there is room.
    pub fn hold(&mut self, snapshot: S, r: u64)
        requires room { vec_len self.old.looks < vec_capacity self.old.looks }
        ensures { seat_value self.new ≡ beginning (seat_value self.old) snapshot r }
    {
        let begun = self.looks.len();
        self.looks.push_reserved(r);
        self.open = Some(Open {
            snapshot,
            begun,
            answered: false,
        });
    }

    /// Adds what an ask was told at the snapshot that the client holds, if any. It takes no memory, where there is room.
    pub fn hear_answer(&mut self, told: Told<Q>)
        requires room { vec_len self.old.told < vec_capacity self.old.told }
        ensures { seat_value self.new ≡ hearing (record (seat_value self.old) { open_at = answered_at (seat_value self.old).open_at }) told }
    {
        if let Some(open) = &mut self.open {
            open.answered = true;
        }
        self.hear(told);
    }

    /// Gives the snapshot back. It takes no memory.
    pub fn finish(&mut self)
        ensures { seat_value self.new ≡ record (seat_value self.old) { open_at = None } }
    {
        self.open = None;
    }
}
