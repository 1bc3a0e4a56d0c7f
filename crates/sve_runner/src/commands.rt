//! The commands of one client, one after another.
ghost use Rattle.std.specs.Prelude.{◌≡◌, ℕ, ◌+◌, ◌<◌, ◌≤◌, ◌^◌, ◌++◌, ◌∷◌, [], All, Some, length, slice_get, IfOk, IsErrOf, OnErr, OnOk};
ghost use Rattle.sve_board.specs.Log.{largest};
ghost use Rattle.sve_command.specs.Sizes.{edit_count};
ghost use Rattle.sve_command.specs.declared.commands.Command.TheVariants.{Commit as Commits, Ask};
ghost use Rattle.sve_session.specs.Passes.{IsLater, IsReady, IsNext};
ghost use Rattle.sve_runner.specs.Honest.{edits_in_command};
ghost use Rattle.sve_runner.specs.Told.{answers_by, outcome_record, IsTold, HasWalked};

use crate::gate::{Gate, Point};
use crate::stop::Stop;
use crate::terms::Terms;
use crate::told::Told;
use std::alloc::Global;
use std::sync::Wait;
use sve_ask::Fresh;
use sve_board::Pass;
use sve_bytes::{List, NoMemory};
use sve_command::{Command, Query};
use sve_reader::laws::an_ask_may_begin;
use sve_report::Record;
use sve_session::{Commit, Outcome, Plan, Session};
use sve_store::Start;
use sve_text::{Edit, Mode};

/// What a command was told, and how many values it computed.
#[derive(Drop)]
struct Step {
    told: Record,
    computes: u64,
}

/// Runs the commands of the pass's client, which has no entry yet. It is told of no revision below one that the pass was
/// told of before.
///
/// # Errors
/// For want of memory, and where the pass has seen as many entries as the history may have. The client then has fewer
/// entries than commands.
pub(crate) fn run_commands<K, P, R, G>(
    rt: &R,
    alloc: Global,
    session: &Session<K, P>,
    pass: &mut Pass,
    commands: &[Command],
    terms: Terms,
    gate: &G,
) -> Result<Told, Stop>
where
    K: Start<Query = Query>,
    P: Plan,
    R: Wait,
    G: Gate,
    requires pass { IsReady P.board.table pass.old }
    requires none { pass.old.mine ≡ [] }
    requires few { (length commands.now < 2 ^ 32) × All (λ command. edit_count command < 2 ^ 32) commands.now }
    requires edits { (j : ℕ) → edits_in_command (slice_get commands.now j) ≡ P.table pass.old.number (j + 1) }
    ensures ready { IsReady P.board.table pass.new }
    ensures number { pass.new.number ≡ pass.old.number }
    ensures told { IfOk result (λ told. (front : ℕ) → front ≤ largest pass.old.looks → HasWalked (answers_by K.Key.cmp K.given K.make K.answers_over) terms P.opening P.table pass.old.number front commands.now pass.new told.records) }
    ensures few { length pass.new.mine ≤ length commands.now }
    ensures full { IsErrOf result Stop.Full → (length pass.new.mine < length commands.now) × (length pass.new.seen ≡ P.most) }
{
    let mut records = Vec::new(alloc);
    let mut counts = Vec::new(alloc);
    for (j, command) in commands.iter().enumerate() {
        let number = j as u32 + 1;
        let step = run_command(rt, alloc, session, pass, number, command, terms, gate)?;
        keep(&mut records, &mut counts, step)?;
    }
    Ok(Told {
        records: List::of(records),
        counts: List::of(counts),
    })
}

fn keep(records: &mut Vec<Record>, counts: &mut Vec<u64>, step: Step) -> Result<(), NoMemory>
    ensures records { OnOk result (records.new.items ≡ records.old.items ++ step.told ∷ []) }
    ensures counts { OnOk result (counts.new.items ≡ counts.old.items ++ step.computes ∷ []) }
{
    let Step { told, computes } = step;
    records.push(told)?;
    counts.push(computes)?;
    Ok(())
}

/// Runs a command, whose number is above those of the client's entries.
fn run_command<K, P, R, G>(
    rt: &R,
    alloc: Global,
    session: &Session<K, P>,
    pass: &mut Pass,
    number: u32,
    command: &Command,
    terms: Terms,
    gate: &G,
) -> Result<Step, Stop>
where
    K: Start<Query = Query>,
    P: Plan,
    R: Wait,
    G: Gate,
    requires pass { IsReady P.board.table pass.old }
    requires next { IsNext pass.old number }
    requires few { edit_count command.now < 2 ^ 32 }
    requires edits { edits_in_command (Some command.now) ≡ P.table pass.old.number number }
    ensures later { IsLater pass.old pass.new }
    ensures ready { IsReady P.board.table pass.new }
    ensures told { IfOk result (λ step. IsTold (answers_by K.Key.cmp K.given K.make K.answers_over) terms P.opening P.table pass.old.number number command.now pass.old pass.new step.told) }
    ensures unchanged { OnErr result (pass.new.mine ≡ pass.old.mine) }
    ensures full { IsErrOf result Stop.Full → length pass.new.seen ≡ P.most }
{
    match command {
        Command::Commit(edits) => run_commit(
            rt,
            alloc,
            session,
            pass,
            number,
            edits.items(),
            terms,
        ),
        Command::Ask {
            query,
            mode,
            budget,
        } => run_ask(
            rt, alloc, session, pass, number, query, *mode, *budget, terms, gate,
        ),
    }
}

/// Commits these edits.
fn run_commit<K, P, R>(
    rt: &R,
    alloc: Global,
    session: &Session<K, P>,
    pass: &mut Pass,
    number: u32,
    edits: &[Edit],
    _terms: Terms,
) -> Result<Step, Stop>
where
    K: Start<Query = Query>,
    P: Plan,
    R: Wait,
    requires pass { IsReady P.board.table pass.old }
    requires next { IsNext pass.old number }
    requires few { length edits.now < 2 ^ 32 }
    requires edits { edits.now ≡ P.table pass.old.number number }
    ensures later { IsLater pass.old pass.new }
    ensures ready { IsReady P.board.table pass.new }
    ensures told { IfOk result (λ step. IsTold (answers_by K.Key.cmp K.given K.make K.answers_over) _terms P.opening P.table pass.old.number number (Commits edits.now) pass.old pass.new step.told) }
    ensures unchanged { OnErr result (pass.new.mine ≡ pass.old.mine) }
    ensures full { IsErrOf result Stop.Full → length pass.new.seen ≡ P.most }
{
    match session.commit(rt, alloc, pass, number, edits)? {
        Commit::Accepted { r } => Ok(Step {
            told: Record::Accepted { r },
            computes: 0,
        }),
        Commit::Refused { r, edit, why } => Ok(Step {
            told: Record::Refused { r, edit, why },
            computes: 0,
        }),
        Commit::Full => Err(Stop::Full),
    }
}

/// Asks a query at the newest revision, and publishes what was found.
fn run_ask<K, P, R, G>(
    rt: &R,
    alloc: Global,
    session: &Session<K, P>,
    pass: &mut Pass,
    number: u32,
    query: &Query,
    mode: Mode,
    budget: Option<u32>,
    terms: Terms,
    gate: &G,
) -> Result<Step, Stop>
where
    K: Start<Query = Query>,
    P: Plan,
    R: Wait,
    G: Gate,
    requires pass { IsReady P.board.table pass.old }
    ensures later { IsLater pass.old pass.new }
    ensures ready { IsReady P.board.table pass.new }
    ensures told { IfOk result (λ step. IsTold (answers_by K.Key.cmp K.given K.make K.answers_over) terms P.opening P.table pass.old.number number (Ask query.now mode budget) pass.old pass.new step.told) }
    ensures unchanged { OnErr result (pass.new.mine ≡ pass.old.mine) }
    ensures memory { ¬ IsErrOf result Stop.Full }
{
    let client = pass.client();
    let lent = session.begin(rt, alloc, pass)?;
    let revision = lent.snapshot().revision();
    let mut kinds = K::start(lent.snapshot().files());
    let mut fresh = Fresh::new();
    an_ask_may_begin::<K>();
    gate.at(Point::Before {
        client,
        command: number,
    });
    let outcome = session.work(
        alloc,
        &lent,
        pass,
        &mut kinds,
        query,
        terms.budget_of(budget),
        terms.mode_of(mode),
        &mut fresh,
    )?;
    gate.at(Point::After {
        client,
        command: number,
    });
    session.finish(rt, alloc, pass, lent, fresh)?;
    Ok(Step {
        told: outcome_record(revision, outcome),
        computes: kinds.computes(),
    })
}

/// The record of an ask at this revision.
fn outcome_record(revision: u64, outcome: Outcome) -> Record
    ensures { result ≡ outcome_record revision outcome }
{
    match outcome {
        Outcome::Answered(lines) => Record::Answered { r: revision, lines },
        Outcome::Spent { budget } => Record::Spent {
            r: revision,
            budget,
        },
        Outcome::Cancelled { base, newer } => Record::Cancelled { base, newer },
    }
}
