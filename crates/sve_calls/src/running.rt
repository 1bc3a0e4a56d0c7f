//! Sessions of two clients, from their opening to their end.
ghost use Rattle.std.specs.Prelude.{◌≡◌, ◌<◌, ◌^◌, [], ◌∷◌, length, IfOk};
ghost use Rattle.sve_board.specs.Values.{new_pass};
ghost use Rattle.sve_history.specs.Histories.{IsOpening};
ghost use Rattle.sve_session.specs.Passes.{IsReady, IsNext};
ghost use Rattle.sve_calls.specs.SameEdits.{same_edits};

use crate::asking::{ask_between, ask_in_turn};
use crate::committing::commits;
use std::alloc::Global;
use std::fmt::Write;
use std::marker::Brand;
use std::slice;
use std::sync::Wait;
use sve_board::{Board, Pass, WriterSeat};
use sve_bytes::{Name, NoMemory};
use sve_sample::Texts;
use sve_session::{Plan, Session};
use sve_text::{Edit, Files, Mode};

/// Which calls are made.
#[derive(Clone, Copy)]
pub enum Turns {
    /// Commits of client 2.
    Commits,
    /// An ask of client 1 in this mode, with commits of client 2 between its calls.
    Between(Mode),
    /// Asks of both clients, with one commit of client 2 between.
    Asks,
}

/// The calls of a row.
#[derive(Clone, Copy)]
pub struct Row {
    /// How many entries the history may have.
    pub most: u32,
    /// How often client 2 commits.
    pub count: u32,
    /// Which calls are made.
    pub turns: Turns,
}

/// Makes the calls of a row over these opening files, which no commit has touched, and tells what came of them. What is asked is
/// the text of this name, and each commit has this edit.
pub fn run<R: Wait>(
    rt: &R,
    alloc: Global,
    files: Files,
    name: &Name,
    edit: &Edit,
    row: Row,
) -> Result<String, NoMemory>
    requires { IsOpening files }
{
    let (board, writer, mut passes) = Board::open(alloc, 2)?;
    let Some(second) = passes.pop() else {
        return Ok(String::new(alloc));
    };
    let Some(first) = passes.pop() else {
        return Ok(String::new(alloc));
    };
    run_plan::<Brand, R>(
        rt,
        alloc,
        board,
        writer,
        first,
        second,
        files,
        name,
        slice::from_ref(edit),
        row,
    )
}

/// The same over a plan, which is what is passed.
fn run_plan<P: Plan, R: Wait>(
    rt: &R,
    alloc: Global,
    board: Board,
    writer: WriterSeat,
    first: Pass,
    second: Pass,
    files: Files,
    name: &Name,
    edits: &[Edit],
    row: Row,
) -> Result<String, NoMemory>
    requires plan { (board ≡ P.board) × (files ≡ P.opening) × (row.most ≡ P.most) × (P.table ≡ same_edits edits.now) }
    requires writer { (writer.table ≡ board.table) × (writer.log ≡ []) }
    requires first { first ≡ new_pass board.table 1 }
    requires second { second ≡ new_pass board.table 2 }
    requires opening { IsOpening files }
    requires few { length edits.now < 2 ^ 32 }
{
    let session = Session::<Texts, P>::open(alloc, board, writer, files, row.most as u64)?;
    run_session(rt, alloc, session, first, second, name, edits, row)
}

/// The same over a session.
fn run_session<P: Plan, R: Wait>(
    rt: &R,
    alloc: Global,
    session: Session<Texts, P>,
    mut first: Pass,
    mut second: Pass,
    name: &Name,
    edits: &[Edit],
    row: Row,
) -> Result<String, NoMemory>
    requires plan { P.table ≡ same_edits edits.now }
    requires few { length edits.now < 2 ^ 32 }
    requires first { IsReady P.board.table first }
    requires second { IsReady P.board.table second }
    requires next { IsNext second 1 }
{
    let mut out = String::new(alloc);
    call(
        rt,
        alloc,
        &session,
        &mut first,
        &mut second,
        name,
        edits,
        row,
        &mut out,
    )?;
    let length = length_at_end(alloc, session, first, second)?;
    write!(out, "history {length}")?;
    Ok(out)
}

/// Ends a session, and tells how many entries its history has.
fn length_at_end<P: Plan>(
    alloc: Global,
    session: Session<Texts, P>,
    first: Pass,
    second: Pass,
) -> Result<u64, NoMemory>
    requires first { IsReady P.board.table first }
    requires second { IsReady P.board.table second }
{
    let history = session.close(both(alloc, first, second)?);
    Ok(history.len())
}

/// Makes the calls of a row, and adds what they told.
fn call<P: Plan, R: Wait>(
    rt: &R,
    alloc: Global,
    session: &Session<Texts, P>,
    first: &mut Pass,
    second: &mut Pass,
    name: &Name,
    edits: &[Edit],
    row: Row,
    out: &mut String,
) -> Result<(), NoMemory>
    requires plan { P.table ≡ same_edits edits.now }
    requires few { length edits.now < 2 ^ 32 }
    requires first { IsReady P.board.table first.old }
    requires second { IsReady P.board.table second.old }
    requires next { IsNext second.old 1 }
    ensures first { IsReady P.board.table first.new }
    ensures second { IsReady P.board.table second.new }
{
    match row.turns {
        Turns::Commits => commits(rt, alloc, session, second, edits, row.count, out),
        Turns::Between(mode) => ask_between(
            rt, alloc, session, first, second, name, mode, edits, row.count, out,
        ),
        Turns::Asks => ask_in_turn(rt, alloc, session, first, second, name, edits, out),
    }
}

fn both(alloc: Global, first: Pass, second: Pass) -> Result<Vec<Pass>, NoMemory>
    ensures { IfOk result (λ passes. passes.items ≡ first ∷ second ∷ []) }
{
    let mut passes = Vec::with_capacity(alloc, 2)?;
    passes.push(first)?;
    passes.push(second)?;
    Ok(passes)
}
