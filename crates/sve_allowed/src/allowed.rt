//! Whether an event may come.
ghost use Rattle.std.specs.Prelude.{◌≡◌, ◌<◌, ◌^◌, ◌↔◌, Some, IsTrue, length};
ghost use Rattle.sve_text.specs.declared.why.Refusal.{Refusal};
ghost use Rattle.sve_text.specs.Refusals.{refusal_of};
ghost use Rattle.sve_history.specs.Histories.{newest_files};
ghost use Rattle.sve_world.specs.Machine.{MayCome, MayCommit, MayBegin, MayLook, MayAsk, MayPublish};

use sve_store::Start;
use sve_text::{Edit, Mode, refusal};
use sve_world::{Event, EventOf, World};

/// Whether a client may commit these edits as this command.
fn may_commit<K: Start>(world: &World<K>, client: u32, command: u32, edits: &[Edit]) -> bool
    ensures { IsTrue result ↔ MayCommit world.now client command edits.now }
{
    world.stays_honest();
    match world.seat(client) {
        None => false,
        Some(seat) => {
            seat.open.is_none() && seat.is_next(command) && edits.len() <= u32::MAX as usize
        }
    }
}

/// Whether the newest files refuse these edits.
fn is_refused<K: Start>(world: &World<K>, edits: &[Edit]) -> bool
    requires few { length edits.now < 2 ^ 32 }
    ensures { IsTrue result ↔ ((reason : Refusal) × (refusal_of (newest_files world.now.history) edits.now ≡ Some reason)) }
{
    refusal(world.history().newest(), edits).is_some()
}

/// Whether a client may begin.
fn may_begin<K: Start>(world: &World<K>, client: u32) -> bool
    ensures { IsTrue result ↔ MayBegin world.now client }
{
    match world.seat(client) {
        None => false,
        Some(seat) => seat.open.is_none(),
    }
}

/// Whether a client may look.
fn may_look<K: Start>(world: &World<K>, client: u32) -> bool
    ensures { IsTrue result ↔ MayLook world.now client }
{
    world.seat(client).is_some()
}

/// Whether a client may give a snapshot back.
fn may_publish<K: Start>(world: &World<K>, client: u32) -> bool
    ensures { IsTrue result ↔ MayPublish world.now client }
{
    match world.seat(client) {
        None => false,
        Some(seat) => seat.open.is_some(),
    }
}

/// Whether a client may ask as this command, and be cancelled for this revision.
fn may_ask<K: Start>(
    world: &World<K>,
    client: u32,
    command: u32,
    mode: Mode,
    newer: Option<u64>,
) -> bool
    ensures { IsTrue result ↔ MayAsk world.now client command mode newer }
{
    world.stays_honest();
    let Some(seat) = world.seat(client) else {
        return false;
    };
    let Some(open) = &seat.open else {
        return false;
    };
    if open.answered || !seat.is_next(command) {
        return false;
    }
    match newer {
        None => true,
        Some(newer) => {
            mode == Mode::Latest
                && open.snapshot.revision() < newer
                && seat.has_seen(open.begun, newer)
        }
    }
}

/// Whether the event may come, whatever memos it brings. It takes no memory.
pub fn allows<K: Start>(world: &World<K>, event: &Event<K>) -> bool
    ensures { IsTrue result ↔ MayCome world.now event.now }
{
    match event {
        EventOf::Commit {
            client,
            command,
            edits,
        } => {
            may_commit(world, *client, *command, edits.items())
                && refusal(world.history().newest(), edits.items()).is_none()
        }
        EventOf::Refuse {
            client,
            command,
            edits,
        } => {
            may_commit(world, *client, *command, edits.items()) && is_refused(world, edits.items())
        }
        EventOf::Begin { client } => may_begin(world, *client),
        EventOf::Look { client } => may_look(world, *client),
        EventOf::Answer {
            client,
            command,
            query: _,
            budget: _,
            mode,
            newer,
        } => may_ask(world, *client, *command, *mode, *newer),
        EventOf::Publish { client, fresh: _ } => may_publish(world, *client),
    }
}
