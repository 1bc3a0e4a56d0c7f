//! All clients of a session, from its opening to its end.
ghost use Rattle.std.specs.Prelude.{◌≡◌, ◌+◌, ◌<◌, ◌≤◌, ◌^◌, [], length, map, IfOk, OnOk};
ghost use Rattle.sve_board.specs.Log.{IsClient, largest};
ghost use Rattle.sve_board.specs.Values.{PassValue, new_pass, new_passes};
ghost use Rattle.sve_history.specs.Histories.{IsOpening};
ghost use Rattle.sve_session.specs.Passes.{IsReady, HasGoneOn};
ghost use Rattle.sve_session.specs.Ends.{IsEnded};
ghost use Rattle.sve_clients.specs.Runs.{pass_of, left_of, HasRun, HaveDone, AreTurns, HaveLeft};

use crate::client::{Client, Ran};
use std::alloc::Global;
use std::marker::Brand;
use std::sync::Wait;
use std::thread;
use std::thread::Threads;
use sve_board::{Board, Pass, WriterSeat};
use sve_bytes::{List, NoMemory};
use sve_history::History;
use sve_session::{Plan, Session};
use sve_store::Kinds;
use sve_text::Files;

/// How clients run.
#[derive(Clone, Copy, PartialEq, Eq)]
pub enum Order {
    /// Each on a thread of its own, or on the calling thread where none can be had.
    AtOnce,
    /// One after another on the calling thread, client 1 first.
    InTurn,
}

/// The history of a session, and what each client left, client 1 first.
#[derive(Drop)]
pub struct Ended<X> {
    pub history: History,
    pub left: List<X>,
}

/// Runs 1 to 16 clients of a session with these opening files, which no commit has touched, and whose history may have
/// `most` entries. Where they run in turn, none is told of less than those before it. Every thread is joined. It may
/// wait.
///
/// # Errors
/// Only for want of memory.
pub fn run_clients<K, C, R>(
    rt: &R,
    alloc: Global,
    files: Files,
    clients: u32,
    most: u64,
    client: &C,
    order: Order,
) -> Result<Ended<C::Left>, NoMemory>
where
    K: Kinds + Send + Sync,
    K::Key: Send + Sync,
    K::Value: Send + Sync,
    K::Query: Send + Sync,
    C: Client<K> + Sync,
    R: Threads + Wait + Sync,
    requires clients { (0 < clients) × (clients ≤ 16) }
    requires opening { IsOpening files }
    requires few { most < 2 ^ 62 }
    ensures history { IfOk result (λ ended. IsEnded files (C.edits client.now) clients ended.history) }
    ensures count { IfOk result (λ ended. length ended.left ≡ clients) }
    ensures left { IfOk result (λ ended. HaveLeft (C.leaves client.now files most) order ended.history 1 0 ended.left) }
{
    let (board, writer, passes) = Board::open(alloc, clients)?;
    run_plan::<K, Brand, C, R>(rt, alloc, board, writer, passes, files, most, client, order)
}

/// The same over a plan, which is what is passed.
fn run_plan<K, P, C, R>(
    rt: &R,
    alloc: Global,
    board: Board,
    writer: WriterSeat,
    passes: Vec<Pass>,
    files: Files,
    most: u64,
    client: &C,
    order: Order,
) -> Result<Ended<C::Left>, NoMemory>
where
    K: Kinds + Send + Sync,
    K::Key: Send + Sync,
    K::Value: Send + Sync,
    K::Query: Send + Sync,
    P: Plan + Send + Sync,
    C: Client<K> + Sync,
    R: Threads + Wait + Sync,
    requires plan { (board ≡ P.board) × (files ≡ P.opening) × (most ≡ P.most) × (P.table ≡ C.edits client.now) }
    requires writer { (writer.table ≡ board.table) × (writer.log ≡ []) }
    requires passes { passes.items ≡ new_passes board.table board.clients }
    requires opening { IsOpening files }
    requires few { most < 2 ^ 62 }
    ensures history { IfOk result (λ ended. IsEnded files (C.edits client.now) board.clients ended.history) }
    ensures count { IfOk result (λ ended. length ended.left ≡ board.clients) }
    ensures left { IfOk result (λ ended. HaveLeft (C.leaves client.now files most) order ended.history 1 0 ended.left) }
{
    let session = Session::<K, P>::open(alloc, board, writer, files, most)?;
    let rans = run_all(rt, alloc, &session, passes, client, order)?;
    let (passes, left) = parted(alloc, rans)?;
    let history = session.close(passes);
    Ok(Ended {
        history,
        left: List::of(left),
    })
}

/// Runs all clients in this order.
fn run_all<K, P, C, R>(
    rt: &R,
    alloc: Global,
    session: &Session<K, P>,
    passes: Vec<Pass>,
    client: &C,
    order: Order,
) -> Result<Vec<Ran<C::Left>>, NoMemory>
where
    K: Kinds + Send + Sync,
    K::Key: Send + Sync,
    K::Value: Send + Sync,
    K::Query: Send + Sync,
    P: Plan + Send + Sync,
    C: Client<K> + Sync,
    R: Threads + Wait + Sync,
    requires plan { P.table ≡ C.edits client.now }
    requires passes { passes.items ≡ new_passes P.board.table P.board.clients }
    ensures count { IfOk result (λ rans. length rans.items ≡ P.board.clients) }
    ensures done { IfOk result (λ rans. HaveDone (C.leaves client.now P.opening P.most) order P.board.table 1 0 rans.items) }
{
    match order {
        Order::AtOnce => run_at_once(rt, alloc, session, passes, client),
        Order::InTurn => run_in_turn(rt, alloc, session, passes, client),
    }
}

/// Runs all clients at once.
fn run_at_once<K, P, C, R>(
    rt: &R,
    alloc: Global,
    session: &Session<K, P>,
    passes: Vec<Pass>,
    client: &C,
) -> Result<Vec<Ran<C::Left>>, NoMemory>
where
    K: Kinds + Send + Sync,
    K::Key: Send + Sync,
    K::Value: Send + Sync,
    K::Query: Send + Sync,
    P: Plan + Send + Sync,
    C: Client<K> + Sync,
    R: Threads + Wait + Sync,
    requires plan { P.table ≡ C.edits client.now }
    requires passes { passes.items ≡ new_passes P.board.table P.board.clients }
    ensures count { IfOk result (λ rans. length rans.items ≡ P.board.clients) }
    ensures done { IfOk result (λ rans. HaveDone (C.leaves client.now P.opening P.most) Order.AtOnce P.board.table 1 0 rans.items) }
{
    let rans = thread::map_vec(
        rt,
        passes,
        &|pass: Pass| -> Ran<C::Left>
            requires { (P.table ≡ C.edits client.now) × IsReady P.board.table pass × (pass.mine ≡ []) × IsClient P.board.clients pass.number }
            ensures { HasRun (C.leaves client.entry.now P.opening P.most) P.board.table pass result }
        { client.run(rt, alloc, session, pass) },
    )?;
    Ok(rans)
}

/// Runs one client after another. Each is told of all that those before it did.
fn run_in_turn<K, P, C, R>(
    rt: &R,
    alloc: Global,
    session: &Session<K, P>,
    passes: Vec<Pass>,
    client: &C,
) -> Result<Vec<Ran<C::Left>>, NoMemory>
where
    K: Kinds,
    P: Plan,
    C: Client<K>,
    R: Wait,
    requires plan { P.table ≡ C.edits client.now }
    requires passes { passes.items ≡ new_passes P.board.table P.board.clients }
    ensures count { IfOk result (λ rans. length rans.items ≡ P.board.clients) }
    ensures done { IfOk result (λ rans. HaveDone (C.leaves client.now P.opening P.most) Order.InTurn P.board.table 1 0 rans.items) }
{
    let mut rans = Vec::new(alloc);
    for pass in passes {
        run_next(rt, alloc, session, &mut rans, pass, client)?;
    }
    Ok(rans)
}

/// Runs the next client, behind those that ran in turn so far.
fn run_next<K, P, C, R>(
    rt: &R,
    alloc: Global,
    session: &Session<K, P>,
    rans: &mut Vec<Ran<C::Left>>,
    pass: Pass,
    client: &C,
) -> Result<(), NoMemory>
where
    K: Kinds,
    P: Plan,
    C: Client<K>,
    R: Wait,
    requires plan { P.table ≡ C.edits client.now }
    requires turns { AreTurns (C.leaves client.now P.opening P.most) P.board.table rans.old.items }
    requires pass { pass ≡ new_pass P.board.table (length rans.old.items + 1) }
    requires client { IsClient P.board.clients pass.number }
    ensures count { OnOk result (length rans.new.items ≡ length rans.old.items + 1) }
    ensures turns { OnOk result (AreTurns (C.leaves client.now P.opening P.most) P.board.table rans.new.items) }
{
    let Some(last) = rans.pop() else {
        rans.push(client.run(rt, alloc, session, pass))?;
        return Ok(());
    };
    let (last, next) = run_behind(rt, alloc, session, last, pass, client);
    rans.push(last)?;
    rans.push(next)?;
    Ok(())
}

/// Runs a client behind another one, which is given back.
fn run_behind<K, P, C, R>(
    rt: &R,
    alloc: Global,
    session: &Session<K, P>,
    earlier: Ran<C::Left>,
    pass: Pass,
    client: &C,
) -> (Ran<C::Left>, Ran<C::Left>)
where
    K: Kinds,
    P: Plan,
    C: Client<K>,
    R: Wait,
    requires plan { P.table ≡ C.edits client.now }
    requires earlier { IsReady P.board.table earlier.pass }
    requires pass { pass ≡ new_pass P.board.table pass.number }
    requires client { IsClient P.board.clients pass.number }
    ensures earlier { HasGoneOn P.board.table earlier.pass result.0.pass × (result.0.left ≡ earlier.left) }
    ensures ran { (before : PassValue) × (before.number ≡ pass.number) × (largest earlier.pass.looks ≤ largest before.looks) × HasRun (C.leaves client.now P.opening P.most) P.board.table before result.1 }
{
    let Ran { pass: met, left } = earlier;
    let mut met = met;
    let mut pass = pass;
    session.follow(rt, &mut pass, &mut met);
    let ran = client.run(rt, alloc, session, pass);
    (Ran { pass: met, left }, ran)
}

/// The passes, and what was left beside them.
fn parted<X: Drop>(alloc: Global, rans: Vec<Ran<X>>) -> Result<(Vec<Pass>, Vec<X>), NoMemory>
    ensures { IfOk result (λ both. (both.0.items ≡ map pass_of rans.items) × (both.1.items ≡ map left_of rans.items)) }
{
    let mut passes = Vec::with_capacity(alloc, rans.len())?;
    let mut left = Vec::with_capacity(alloc, rans.len())?;
    for ran in rans {
        let Ran { pass, left: one } = ran;
        passes.push(pass)?;
        left.push(one)?;
    }
    Ok((passes, left))
}
