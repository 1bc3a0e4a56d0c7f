//! The machine of the core: what all clients share and what each of them knows, one event after another.
ghost use Rattle.std.specs.Prelude.{◌≡◌, ◌≤◌, [], Some, None, IfOk, OnOk, OnErr, replicate};
ghost use Rattle.sve_history.specs.Histories.{IsOpening};
ghost use Rattle.sve_store.specs.Made.{values_of};
ghost use Rattle.sve_store.specs.Values.{IsAnswer};
ghost use Rattle.sve_ask.specs.Sound.{Defined, AllSound};
ghost use Rattle.sve_seat.specs.declared.open.Open.{Open};
ghost use Rattle.sve_seat.specs.Seats.{HeldValue, new_seat, IsWorld};
ghost use Rattle.sve_world.specs.Machine.{MayCome, BringsSound, Follows, MayCommit, after_commit, MayLook, after_look, MayBegin, after_begin, MayAsk, AfterAsk, IsHeld, MayPublish, HasPublished};

use crate::event::{Event, EventOf};
use std::alloc::Global;
use std::marker::Model;
use sve_ask::Fresh;
use sve_bytes::{List, NoMemory};
use sve_core::{Core, Outcome};
use sve_seat::{Held, Seat, Told};
use sve_store::{Start, plain_answer};
use sve_text::{Edit, Files, Mode};

/// What all clients share, and what each of them knows. Whatever events come, each where it is allowed, the history is
/// legal, what each client was told is so, its entries in the history are its commands that were accepted, and each memo is
/// sound.
pub struct World<K: Start> {
    pub(crate) core: Core<K>,
    pub(crate) seats: Vec<Seat<K::Query, Held<K>>>,
}

impl<K: Start> Model for World<K> {
    ghost use Rattle.std.specs.Prelude.{map};
    ghost use Rattle.sve_store.specs.Made.{values_of};
    ghost use Rattle.sve_store.specs.Values.{IsAnswer};
    ghost use Rattle.sve_seat.specs.Seats.{seat_value, IsWorld};
    ghost use Rattle.sve_world.specs.Machine.{WorldValue};

    ghost Value = { WorldValue K.Query K.Key K.Value };

    ghost view = { λ w. record { history = w.core.history; memos = w.core.memos; seats = map seat_value w.seats.items } };

    ghost invariant = { λ w. IsWorld (λ files. IsAnswer K.Key.cmp (values_of (K.given files)) K.make K.answers_over) w.core.history (map seat_value w.seats.items) };
}

impl<K: Start> World<K> {
    /// A world of 1 to 16 clients with these opening files, on condition that no commit has touched them. It has no
    /// entry and no memo, and nobody knows anything.
    ///
    /// # Errors
    /// Only for want of memory.
    pub fn open(alloc: Global, files: Files, clients: u32) -> Result<World<K>, NoMemory>
        requires opening { IsOpening files }
        requires clients { (1 ≤ clients) × (clients ≤ 16) }
        ensures { IfOk result (λ world. world ≡ record { history = record { opening = files; entries = [] }; memos = []; seats = replicate clients new_seat }) }
    {
        let mut seats = Vec::with_capacity(alloc, clients as usize)?;
        'seats: while seats.len() < clients as usize {
            seats.push(Seat::new(alloc))?;
        }
        let core = Core::open(alloc, files)?;
        Ok(World { core, seats })
    }

    /// What holds of every world: the history is legal, no commit has touched the opening files, each entry is of one of
    /// the clients, and what each client was told is so. It does nothing.
    pub fn stays_honest(&self)
        ensures { IsWorld (λ files. IsAnswer K.Key.cmp (values_of (K.given files)) K.make K.answers_over) self.now.history self.now.seats }
    {
        // What the type keeps is known where one of its fields is looked at.
        let _ = &self.core;
    }

    /// A client commits, and is told what the core says.
    fn commit(
        &mut self,
        alloc: Global,
        client: u32,
        command: u32,
        edits: List<Edit>,
    ) -> Result<(), NoMemory>
        requires may { MayCommit self.old client command edits }
        ensures after { OnOk result (self.new ≡ after_commit self.old client command edits) }
        ensures unchanged { OnErr result (self.new ≡ self.old) }
    {
        let seat = &mut self.seats[client as usize - 1];
        seat.make_room()?;
        let commit = self.core.commit(alloc, client, command, edits.items())?;
        let r = self.core.history().len();
        seat.hear_commit(
            r,
            Told::Committed {
                command,
                edits,
                commit,
            },
        );
        Ok(())
    }

    /// A client looks up the length of the history.
    fn look(&mut self, client: u32) -> Result<(), NoMemory>
        requires may { MayLook self.old client }
        ensures after { OnOk result (self.new ≡ after_look self.old client) }
        ensures unchanged { OnErr result (self.new ≡ self.old) }
    {
        let seat = &mut self.seats[client as usize - 1];
        seat.make_room()?;
        let r = self.core.history().len();
        seat.look(r);
        Ok(())
    }

    /// A client takes a snapshot of the newest revision.
    fn begin(&mut self, alloc: Global, client: u32) -> Result<(), NoMemory>
        requires may { MayBegin self.old client }
        ensures after { OnOk result (self.new ≡ after_begin self.old client) }
        ensures unchanged { OnErr result (self.new ≡ self.old) }
    {
        let seat = &mut self.seats[client as usize - 1];
        let lent = self.core.begin(alloc)?;
        let held = Held::of(lent);
        let r = held.revision();
        seat.make_room()?;
        seat.hold(held, r);
        Ok(())
    }

    /// A client's snapshot is asked, and the ask is answered by its files.
    fn ask(
        &mut self,
        alloc: Global,
        client: u32,
        command: u32,
        query: K::Query,
        budget: u32,
        mode: Mode,
    ) -> Result<(), NoMemory>
        requires may { MayAsk self.old client command mode None }
        ensures after { OnOk result (AfterAsk (λ files. IsAnswer K.Key.cmp (values_of (K.given files)) K.make K.answers_over) self.old client command query budget mode None self.new) }
        ensures unchanged { OnErr result (self.new ≡ self.old) }
    {
        let seat = &mut self.seats[client as usize - 1];
        let Some(open) = &seat.open else {
            unreachable!()
        };
        let revision = open.snapshot.revision();
        let answer = plain_answer(alloc, open.snapshot.snapshot(), &query, budget)?;
        let outcome = Outcome::of(budget, answer);
        seat.make_room()?;
        seat.hear_answer(Told::Asked {
            command,
            query,
            budget,
            mode,
            revision,
            outcome,
        });
        Ok(())
    }

    /// A client's snapshot is asked, and the ask is cancelled for a later revision.
    fn cancel(
        &mut self,
        client: u32,
        command: u32,
        query: K::Query,
        budget: u32,
        mode: Mode,
        newer: u64,
    ) -> Result<(), NoMemory>
        requires may { MayAsk self.old client command mode (Some newer) }
        ensures after { OnOk result (AfterAsk (λ files. IsAnswer K.Key.cmp (values_of (K.given files)) K.make K.answers_over) self.old client command query budget mode (Some newer) self.new) }
        ensures unchanged { OnErr result (self.new ≡ self.old) }
    {
        let seat = &mut self.seats[client as usize - 1];
        let Some(open) = &seat.open else {
            unreachable!()
        };
        let base = open.snapshot.revision();
        seat.make_room()?;
        seat.hear_answer(Told::Asked {
            command,
            query,
            budget,
            mode,
            revision: base,
            outcome: Outcome::Cancelled { base, newer },
        });
        Ok(())
    }

    /// A client gives its snapshot back, with the memos that were made or verified at it.
    fn publish(&mut self, alloc: Global, client: u32, fresh: Fresh<K>) -> Result<(), NoMemory>
        requires may { MayPublish self.old client }
        requires sound { (held : Open (HeldValue K.Key K.Value)) → IsHeld self.old client held → ∥ AllSound (record { cmp = K.Key.cmp; given = K.given; make = K.make; ranked = K.ranked; serves = K.serves }) held.snapshot.history fresh.memos ∥₁ }
        ensures after { OnOk result (HasPublished K.Key.cmp self.old client fresh.memos self.new) }
        ensures unchanged { OnErr result (self.new ≡ self.old) }
    {
        let seat = &mut self.seats[client as usize - 1];
        let Some(open) = &seat.open else {
            unreachable!()
        };
        let base = open.snapshot.revision();
        self.core.publish(alloc, base, fresh)?;
        self.core.stays_sound();
        seat.finish();
        Ok(())
    }
}

impl<K: Start> Drop for World<K> {
    fn drop(self) {
        let World { core: _, seats: _ } = self;
    }
}

/// Lets one event happen, on condition that it may come, and that the memos that it brings are sound for the snapshot that is
/// given back. It leads to the world that the machine says.
///
/// # Errors
/// Only for want of memory; the world is then as before.
pub fn step<K: Start>(alloc: Global, world: &mut World<K>, event: Event<K>) -> Result<(), NoMemory>
    requires allowed { MayCome world.old event }
    requires sound { BringsSound (record { cmp = K.Key.cmp; given = K.given; make = K.make; ranked = K.ranked; serves = K.serves }) (λ fresh. fresh.memos) world.old event }
    ensures after { OnOk result (Follows (λ files. IsAnswer K.Key.cmp (values_of (K.given files)) K.make K.answers_over) K.Key.cmp (λ fresh. fresh.memos) world.old event world.new) }
    ensures unchanged { OnErr result (world.new ≡ world.old) }
{
    match event {
        EventOf::Commit {
            client,
            command,
            edits,
        } => world.commit(alloc, client, command, edits),
        EventOf::Refuse {
            client,
            command,
            edits,
        } => world.commit(alloc, client, command, edits),
        EventOf::Begin { client } => world.begin(alloc, client),
        EventOf::Look { client } => world.look(client),
        EventOf::Answer {
            client,
            command,
            query,
            budget,
            mode,
            newer,
        } => match newer {
            None => world.ask(alloc, client, command, query, budget, mode),
            Some(newer) => world.cancel(client, command, query, budget, mode, newer),
        },
        EventOf::Publish { client, fresh } => world.publish(alloc, client, fresh),
    }
}
