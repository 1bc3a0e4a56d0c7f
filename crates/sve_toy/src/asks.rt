//! Asks and commits on a core, one after another.
ghost use Rattle.std.specs.Prelude.{◌≡◌, ◌<◌, ◌+◌, [], All, IfOk, OnOk};
ghost use Rattle.sve_history.specs.Histories.{IsOpening, commands_of};

use crate::kinds::{Key, Toy, name_a};
use crate::watch::Once;
use std::alloc::Global;
use std::fmt::Write;
use std::slice;
use sve_again::{answered, answered_twice};
use sve_bytes::NoMemory;
use sve_core::Core;
use sve_io::Halt;
use sve_row::spell;
use sve_sample::text_of;
use sve_store::{Answer, Keyed, Start};
use sve_text::{Edit, Files};

/// The core over some files, and the kinds under whose count its values are computed.
#[derive(Drop)]
pub struct Asks {
    /// What is shared.
    pub core: Core<Toy>,
    /// The kinds.
    pub kinds: Toy,
}

impl Asks {
    /// Over these opening files.
    pub fn over(alloc: Global, files: Files) -> Result<Asks, NoMemory>
        requires { IsOpening files }
        ensures { IfOk result (λ asks. asks.core.history.entries ≡ []) }
    {
        let kinds = Toy::start(&files);
        let core = Core::open(alloc, files)?;
        Ok(Asks { core, kinds })
    }
}

/// Adds an answer: the bytes of its lines, or `spent`.
fn add_answer(out: &mut String, answer: &Answer) -> Result<(), NoMemory> {
    match answer {
        Answer::Done(lines) => {
            for line in lines.items() {
                spell(out, line.items())?;
            }
            Ok(())
        }
        Answer::Spent => out.push_str("spent"),
    }
}

/// Adds why a call did not come to its answer.
fn add_halt(out: &mut String, halt: Halt) -> Result<(), NoMemory> {
    match halt {
        Halt::Stopped(number) => write!(out, "stopped {number}"),
        Halt::NoMemory => out.push_str("no memory"),
    }
}

/// Adds a blank behind what is there.
fn separate(out: &mut String) -> Result<(), NoMemory> {
    if out.is_empty() {
        return Ok(());
    }
    out.push(' ')
}

/// Asks for a key at the newest revision under a watch that gives this number, and adds the answer with the number of values that
/// were computed for it.
pub fn ask(
    alloc: Global,
    asks: &mut Asks,
    key: Key,
    stop: Option<u64>,
    out: &mut String,
) -> Result<(), NoMemory>
    ensures { asks.new.core.history ≡ asks.old.core.history }
{
    let before = asks.kinds.computes();
    let (answer, _watch) = answered(
        alloc,
        &mut asks.core,
        &mut asks.kinds,
        &key,
        0,
        Once::of(stop),
    );
    let computes = asks.kinds.computes().saturating_sub(before);
    separate(out)?;
    match answer {
        Ok(answer) => {
            add_answer(out, &answer)?;
            write!(out, ":{computes}")
        }
        Err(halt) => add_halt(out, halt),
    }
}

/// Lets client 1 commit a text of the file `a`, by this command.
fn commit(alloc: Global, asks: &mut Asks, command: u32, text: &str) -> Result<(), NoMemory>
    requires rises { All (λ earlier. earlier < command) (commands_of 1 asks.old.core.history.entries) }
    ensures rises { OnOk result (All (λ earlier. earlier < command + 1) (commands_of 1 asks.new.core.history.entries)) }
{
    let edit = Edit::Put {
        name: name_a(alloc)?,
        text: text_of(alloc, text)?,
    };
    let _told = asks.core.commit(alloc, 1, command, slice::from_ref(&edit))?;
    Ok(())
}

/// What is told where a key is asked for over these opening files, and again behind the commit of each of the texts, each time under
/// a watch that gives this number.
pub fn asked_in_turn(
    alloc: Global,
    files: Files,
    key: Key,
    stop: Option<u64>,
    texts: &[&str],
) -> Result<String, NoMemory>
    requires { IsOpening files }
{
    let mut out = String::new(alloc);
    let mut asks = Asks::over(alloc, files)?;
    ask(alloc, &mut asks, key, stop, &mut out)?;
    let mut command = 1u32;
    'texts: for text in texts {
        commit(alloc, &mut asks, command, text)?;
        ask(alloc, &mut asks, key, stop, &mut out)?;
        let Some(next) = command.checked_add(1) else {
            return Ok(out);
        };
        command = next;
    }
    Ok(out)
}

/// What is told where a key is asked for twice over these opening files: both answers, and how many values the second one computed.
pub fn asked_twice(alloc: Global, files: Files, key: Key) -> Result<String, NoMemory>
    requires { IsOpening files }
{
    let mut out = String::new(alloc);
    let mut asks = Asks::over(alloc, files)?;
    let (told, _watch) = answered_twice(
        alloc,
        &mut asks.core,
        &mut asks.kinds,
        &key,
        0,
        Once::of(None),
    );
    match told {
        Ok(twice) => {
            add_answer(&mut out, &twice.first)?;
            out.push(' ')?;
            add_answer(&mut out, &twice.second)?;
            write!(out, ":{}", twice.computes)?;
        }
        Err(halt) => add_halt(&mut out, halt)?,
    }
    Ok(out)
}
