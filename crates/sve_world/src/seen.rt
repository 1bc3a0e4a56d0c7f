//! What is seen of a world.
ghost use Rattle.std.specs.Prelude.{◌≡◌, option_copied, MatchOption, length};
ghost use Rattle.sve_seat.specs.Seats.{seat_value};
ghost use Rattle.sve_world.specs.Machine.{IsOfClient, seat_of, IsClient};

use crate::world::World;
use sve_history::History;
use sve_memo::Memos;
use sve_seat::{Held, Open, Seat, Told};
use sve_store::Start;

impl<K: Start> World<K> {
    /// The history. It takes no memory.
    pub fn history(&self) -> &History
        ensures { result.now ≡ self.now.history }
    {
        self.core.history()
    }

    /// What was found for keys, with what each value rests on. It takes no memory.
    pub fn memos(&self) -> &Memos<K::Key, K::Value>
        ensures { result.now ≡ self.now.memos }
    {
        self.core.memos()
    }

    /// How many clients there are. It takes no memory.
    pub fn clients(&self) -> usize
        ensures { result ≡ length self.now.seats }
    {
        self.seats.len()
    }

    /// What the commands of a client were told so far, in order. It takes no memory.
    pub fn told(&self, client: u32) -> &[Told<K::Query>]
        requires client { IsClient self.now client }
        ensures { result.now ≡ (seat_of self.now client).told }
    {
        self.seats[client as usize - 1].told.as_slice()
    }

    /// The lengths of the history that a client has seen so far, in order. It takes no memory.
    pub fn looks(&self, client: u32) -> &[u64]
        requires client { IsClient self.now client }
        ensures { result.now ≡ (seat_of self.now client).looks }
    {
        self.seats[client as usize - 1].looks.as_slice()
    }

    /// The snapshot that a client holds, if any. It takes no memory.
    pub fn held(&self, client: u32) -> Option<&Open<Held<K>>>
        requires client { IsClient self.now client }
        ensures { option_copied result ≡ (seat_of self.now client).open_at }
    {
        self.seats[client as usize - 1].open.as_ref()
    }

    /// What a client of this number knows, if there is one. It takes no memory.
    pub fn seat(&self, client: u32) -> Option<&Seat<K::Query, Held<K>>>
        ensures { MatchOption result ((seat : _) → IsOfClient self.now client seat → ⊥) (λ seat. IsOfClient self.now client (seat_value seat.now)) }
    {
        if client == 0 {
            return None;
        }
        self.seats.get(client as usize - 1)
    }
}
