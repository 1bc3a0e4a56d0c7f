//! A run of a session: its clients over the kinds of key of this language.
ghost use Rattle.std.specs.Prelude.{◌≡◌, IfOk};
ghost use Rattle.sve_history.specs.Histories.{IsOpening};
ghost use Rattle.sve_runner.specs.Honest.{history_by, told_entries};
ghost use Rattle.sve_script.specs.Limits.{AreInLimits};
ghost use Rattle.sve_serve.specs.Honest.{Honest, run_budget, terms_of};

use std::alloc::Global;
use std::sync::Wait;
use std::thread::Threads;
use sve_bytes::NoMemory;
use sve_query::Svq;
use sve_query::laws::answers_are_those_of_the_files;
use sve_runner::{Gate, Order, Ran, Terms, run_script};
use sve_script::Script;
use sve_words::Options;

/// The budget of an ask that gives none, and of lint, in a run that says none (own).
const DEFAULT_BUDGET: u32 = 1_000_000;

/// Runs the clients of a session, each on a thread of its own or one after another, as the options say. Every thread is
/// joined. It may wait.
///
/// # Errors
/// Only for want of memory.
pub(crate) fn run<G, R>(
    rt: &R,
    alloc: Global,
    options: Options,
    script: Script,
    gate: &G,
) -> Result<Ran, NoMemory>
where
    G: Gate + Sync,
    R: Threads + Wait + Sync,
    requires limits { AreInLimits script.clients }
    requires opening { IsOpening script.files }
    ensures history { IfOk result (λ ran. ran.history ≡ history_by script.files script.clients (told_entries ran.history)) }
    ensures honest { IfOk result (λ ran. Honest options script (told_entries ran.history) ran.records) }
{
    answers_are_those_of_the_files();
    let Script { files, clients } = script;
    let ran = run_script::<Svq, G, R>(rt, alloc, files, clients.items(), terms_of(options), gate)?;
    Ok(ran)
}

/// The budget of what gives none, in a run with these options.
pub(crate) fn run_budget(options: Options) -> u32
    ensures { result ≡ run_budget options }
{
    options.budget.unwrap_or(DEFAULT_BUDGET)
}

/// What a run with these options says of its asks.
fn terms_of(options: Options) -> Terms
    ensures { result ≡ terms_of options }
{
    Terms {
        budget: run_budget(options),
        order: if options.serial {
            Order::InTurn
        } else {
            Order::AtOnce
        },
    }
}
