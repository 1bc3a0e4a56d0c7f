//! Asks, with commits between their calls or between one and the next.
ghost use Rattle.std.specs.Prelude.{◌≡◌, ◌<◌, ◌^◌, length, IfOk};
ghost use Rattle.sve_session.specs.Passes.{IsReady, IsNext};
ghost use Rattle.sve_session.specs.Asks.{HasSeen};
ghost use Rattle.sve_calls.specs.SameEdits.{same_edits};

use crate::committing::commits;
use std::alloc::Global;
use std::fmt::Write;
use std::sync::Wait;
use sve_ask::{Fresh, Lent};
use sve_board::Pass;
use sve_bytes::{Name, NoMemory};
use sve_reader::laws::an_ask_may_begin;
use sve_sample::{Texts, show_outcome};
use sve_session::{Plan, Session};
use sve_store::{Keyed, Start};
use sve_text::{Edit, Mode};

/// The budget of the asks, in bytes.
const BUDGET: u32 = 1_000;

/// Lets the client of `first` begin an ask for the text of a name, the client of `second` commit so often, and the first client
/// work its ask off and begin another, and adds what they were told.
pub fn ask_between<P: Plan, R: Wait>(
    rt: &R,
    alloc: Global,
    session: &Session<Texts, P>,
    first: &mut Pass,
    second: &mut Pass,
    name: &Name,
    mode: Mode,
    edits: &[Edit],
    count: u32,
    out: &mut String,
) -> Result<(), NoMemory>
    requires plan { P.table ≡ same_edits edits.now }
    requires few { length edits.now < 2 ^ 32 }
    requires first { IsReady P.board.table first.old }
    requires second { IsReady P.board.table second.old }
    requires next { IsNext second.old 1 }
    ensures first { IsReady P.board.table first.new }
    ensures second { IsReady P.board.table second.new }
{
    let lent = begin(rt, alloc, session, first, out)?;
    commits(rt, alloc, session, second, edits, count, out)?;
    work_off(rt, alloc, session, first, lent, name, mode, out)?;
    begin(rt, alloc, session, first, out)?;
    Ok(())
}

/// Lets the client of `first` ask twice for the text of a name, the client of `second` commit once, and both ask again, the first
/// one first, and adds what they were told and how many values each ask computed.
pub fn ask_in_turn<P: Plan, R: Wait>(
    rt: &R,
    alloc: Global,
    session: &Session<Texts, P>,
    first: &mut Pass,
    second: &mut Pass,
    name: &Name,
    edits: &[Edit],
    out: &mut String,
) -> Result<(), NoMemory>
    requires plan { P.table ≡ same_edits edits.now }
    requires few { length edits.now < 2 ^ 32 }
    requires first { IsReady P.board.table first.old }
    requires second { IsReady P.board.table second.old }
    requires next { IsNext second.old 1 }
    ensures first { IsReady P.board.table first.new }
    ensures second { IsReady P.board.table second.new }
{
    ask(rt, alloc, session, first, name, out)?;
    ask(rt, alloc, session, first, name, out)?;
    commits(rt, alloc, session, second, edits, 1, out)?;
    ask(rt, alloc, session, first, name, out)?;
    ask(rt, alloc, session, second, name, out)
}

/// Asks for the text of a name at the newest revision, and adds how many values were computed.
fn ask<P: Plan, R: Wait>(
    rt: &R,
    alloc: Global,
    session: &Session<Texts, P>,
    pass: &mut Pass,
    name: &Name,
    out: &mut String,
) -> Result<(), NoMemory>
    requires { IsReady P.board.table pass.old }
    ensures { IsReady P.board.table pass.new }
{
    let lent = begin(rt, alloc, session, pass, out)?;
    let computes = work_off(rt, alloc, session, pass, lent, name, Mode::Pinned, out)?;
    write!(out, "computes {computes}; ")?;
    Ok(())
}

/// The newest revision, whose number is added.
fn begin<P: Plan, R: Wait>(
    rt: &R,
    alloc: Global,
    session: &Session<Texts, P>,
    pass: &mut Pass,
    out: &mut String,
) -> Result<Lent<Texts>, NoMemory>
    requires { IsReady P.board.table pass.old }
    ensures ready { IsReady P.board.table pass.new }
    ensures seen { IfOk result (λ lent. HasSeen P.opening P.table pass.new lent.snapshot) }
{
    let lent = session.begin(rt, alloc, pass)?;
    let revision = lent.snapshot().revision();
    write!(out, "at {revision}; ")?;
    Ok(lent)
}

/// Asks for the text of a name at what was lent, and gives that back with what was found. It tells how many values it computed.
fn work_off<P: Plan, R: Wait>(
    rt: &R,
    alloc: Global,
    session: &Session<Texts, P>,
    pass: &mut Pass,
    lent: Lent<Texts>,
    name: &Name,
    mode: Mode,
    out: &mut String,
) -> Result<u64, NoMemory>
    requires pass { IsReady P.board.table pass.old }
    requires seen { HasSeen P.opening P.table pass.old lent.snapshot }
    ensures { IsReady P.board.table pass.new }
{
    let mut kinds = Texts::start(lent.snapshot().files());
    let mut fresh = Fresh::new();
    an_ask_may_begin::<Texts>();
    let told = session.work(
        alloc, &lent, pass, &mut kinds, name, BUDGET, mode, &mut fresh,
    )?;
    show_outcome(out, &told)?;
    out.push_str("; ")?;
    session.finish(rt, alloc, pass, lent, fresh)?;
    Ok(kinds.computes())
}
