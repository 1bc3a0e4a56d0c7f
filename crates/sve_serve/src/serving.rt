//! The whole program over any source and sink.
ghost use Rattle.std.specs.Prelude.{◌≡◌, ℕ, ◌+◌, ◌<◌, ◌≤◌, ◌⊎◌, ◌++◌, List, [], IfOk, IfSome, length, map, take, string_bytes};
ghost use Rattle.sve_history.specs.Histories.{IsOpening};
ghost use Rattle.sve_report.specs.declared.entry.Entry.{Entry};
ghost use Rattle.sve_report.specs.declared.record.Record.{Record};
ghost use Rattle.sve_report.specs.Lines.{ended};
ghost use Rattle.sve_serve.specs.Honest.{Honest};
ghost use Rattle.sve_io.specs.Faults.{HasRisen};
ghost use Rattle.sve_io.specs.Moves.{Loses, Gains};
ghost use Rattle.sve_script.specs.declared.sessions.Script.{Script};
ghost use Rattle.sve_script.specs.Limits.{AreInLimits};
ghost use Rattle.sve_script.specs.Session.{IsSession};
ghost use Rattle.sve_serve.specs.Endings.{Ends, IsMadeOrCutShort, IsWrittenOrCutShort};
ghost use Rattle.sve_serve.specs.Runs.{max_session, usage_line, too_large_line, AreLeft, IsReportOf, IsRunOver, IsSummaryOf, WritesItsOutput, IsOutputFor, IsOutputForSession, IsBad, word_of, shape_line, limit_line};
ghost use Rattle.sve_serve.specs.Texts.{IsTextOf, last_files};
ghost use Rattle.sve_serve.specs.Words.{IsMade, IsRun};
ghost use Rattle.sve_words.specs.declared.request.Options.{Options as OptionsSaid};
ghost use Rattle.sve_words.specs.Words.{spoken, IsInLimit};

use crate::running::run;
use crate::status::Status;
use crate::summary::summary;
use crate::texts::text_of;
use crate::transfer::{ReadError, read_session, write_text};
use itoa::Buffer;
use std::alloc::{AllocError, Global};
use std::sync::Wait;
use std::thread::Threads;
use sve_bytes::NoMemory;
use sve_io::{Sink, Source};
use sve_lint::Rule;
use sve_runner::{Gate, told_entries};
use sve_script::{BadSession, Script, Which, made_session, script};
use sve_words::{Options, Spoken, spoken};

const USAGE_LINE: &[u8] = b"usage: svserve run [--budget N] [--serial] [--lint] | svserve make N\n";

const NOT_JSON_LINE: &[u8] = b"bad session: not JSON\n";

const TOO_LARGE_LINE: &[u8] = b"bad session: more than 16777216 bytes\n";

/// What is written for a session that was read, and the status with which the run then ends.
#[derive(Drop)]
struct Reply {
    status: Status,
    text: Vec<u8>,
}

/// Does all that the program does: reads the words, then for `run` the session from the source to its end, runs its
/// clients, and writes the report to the sink; for `make` it runs the generated session of so many modules, and writes
/// its summary. A session has at most 16,777,216 bytes. Each client has a thread of its own, or shares the calling one
/// where none can be had; with `--serial` they run one after another, and each command comes at the newest revision.
/// Every thread is joined. In each ask the gate is told when the ask has its snapshot, and when it has its outcome. It
/// may wait.
///
/// With `--lint` the rules are shown each instance of the design that the files of the last revision are, once the clients
/// have ended, and the report tells what they find; where the instances cost more than the budget of the run it tells that.
/// The rules are dropped when the call returns, whatever it did.
///
/// The words are `run` and its options: `--budget N` or `--budget=N`, the budget of lint and of asks that give none, in
/// steps of elaboration, `--serial` and `--lint`; or they are `make` and a number of modules from 1 to 2,000. It answers
/// `Usage` where they are others; then, and for `make`, the source is not read. It answers `ReadFault` and `WriteFault`
/// where the source or the sink failed, `TooLarge` where there are more bytes than a session may have, `BadSession` where
/// they are no session, and `NoMemory` where memory is wanting. Nothing is written before a `ReadFault` or a `NoMemory`.
pub fn serve<R, S, K, G>(
    rt: &R,
    alloc: Global,
    words: &[String],
    source: &mut S,
    sink: &mut K,
    rules: Vec<Box<dyn Rule>>,
    gate: &G,
) -> Status
where
    R: Threads + Wait + Sync,
    S: Source,
    K: Sink,
    G: Gate + Sync,
    // The bytes of the source are a session, and the sink gained the report of one legal history and of records that are
    // honest for it, whatever the schedule of the clients was, and with `--lint` of what the rules find in the design of
    // its last revision. Where clients run one after another, each command comes at the newest revision.
    ensures headline { (options : OptionsSaid) → spoken (map string_bytes words.now) ≡ Spoken.Run options → result ≡ Status.Done
        → (bytes : List ℕ) × (text : List ℕ) × AreLeft (S.left source.old) bytes × IsReportOf options (map (λ rule. state rule) rules.items) bytes text × Gains (K.held sink.old) (K.held sink.new) text }

    // The sink gained the summary of the generated session.
    ensures made { (n : ℕ) → spoken (map string_bytes words.now) ≡ Spoken.Make n → result ≡ Status.Done
        → (text : List ℕ) × IsSummaryOf n text × Gains (K.held sink.old) (K.held sink.new) text }
    ensures done_where { result ≡ Status.Done → IsRun (map string_bytes words.now) ⊎ IsMade (map string_bytes words.now) }

    // Where an output is written whole, words and bytes are those for which it is written, and the sink gained it.
    ensures said { WritesItsOutput result → (bytes : List ℕ) × (text : List ℕ) × AreLeft (S.left source.old) bytes
        × IsOutputFor (map string_bytes words.now) (map (λ rule. state rule) rules.items) bytes result text × Gains (K.held sink.old) (K.held sink.new) text }
    ensures read_to_end { IsRun (map string_bytes words.now) → (result ≡ Status.Done) ⊎ (result ≡ Status.BadSession) → IfSome (S.left source.new) (λ left. left ≡ []) }

    // Words that ask for nothing, or for a generated session, leave the source alone.
    ensures usage_only { result ≡ Status.Usage
        → (spoken (map string_bytes words.now) ≡ Spoken.Usage) × Gains (K.held sink.old) (K.held sink.new) usage_line }
    ensures usage_where { spoken (map string_bytes words.now) ≡ Spoken.Usage
        → (source.new ≡ source.old) × ((result ≡ Status.Usage) ⊎ (result ≡ Status.WriteFault) ⊎ (result ≡ Status.NoMemory)) }

    ensures made_where { IsMade (map string_bytes words.now)
        → (source.new ≡ source.old) × ((result ≡ Status.Done) ⊎ (result ≡ Status.WriteFault) ⊎ (result ≡ Status.NoMemory)) }

    // A fault has its cause in a count that rose, or stands at its last value.
    ensures read_fault { result ≡ Status.ReadFault → HasRisen (S.faults source.old) (S.faults source.new) × (sink.new ≡ sink.old) }
    ensures write_fault { result ≡ Status.WriteFault → HasRisen (K.faults sink.old) (K.faults sink.new) }

    // Where the sink failed, it gained a prefix of the output for these words and bytes.
    ensures cut_short { result ≡ Status.WriteFault → (bytes : List ℕ) × (status : Status) × (text : List ℕ) × (count : ℕ)
        × AreLeft (S.left source.old) bytes × IsOutputFor (map string_bytes words.now) (map (λ rule. state rule) rules.items) bytes status text
        × (count ≤ length text) × Gains (K.held sink.old) (K.held sink.new) (take count text) }

    // No more than one byte above the limit is read, and that one leads to TooLarge, a fault of the sink or want of memory.
    ensures read { (moved : List ℕ) × (length moved ≤ max_session + 1) × Loses (S.left source.old) (S.left source.new) moved
        × (max_session < length moved → (result ≡ Status.TooLarge) ⊎ (result ≡ Status.WriteFault) ⊎ (result ≡ Status.NoMemory)) }
    ensures too_large { result ≡ Status.TooLarge
        → (moved : List ℕ) × (length moved ≡ max_session + 1) × Loses (S.left source.old) (S.left source.new) moved
        × Gains (K.held sink.old) (K.held sink.new) too_large_line }
    ensures no_memory { result ≡ Status.NoMemory → (sink.new ≡ sink.old) × ((source.new ≡ source.old) ⊎ IsRun (map string_bytes words.now)) }

    // Where neither end fails, a session is answered and other bytes are refused, or memory is wanting.
    ensures answered { (bytes : List ℕ) (script : Script) → IsRunOver (map string_bytes words.now) (S.left source.old) bytes
        → length bytes ≤ max_session → IsSession bytes script
        → ¬ HasRisen (S.faults source.old) (S.faults source.new) → ¬ HasRisen (K.faults sink.old) (K.faults sink.new)
        → (result ≡ Status.Done) ⊎ (result ≡ Status.NoMemory) }
    ensures refused { (bytes : List ℕ) → IsRunOver (map string_bytes words.now) (S.left source.old) bytes
        → length bytes ≤ max_session → IsBad bytes
        → ¬ HasRisen (S.faults source.old) (S.faults source.new) → ¬ HasRisen (K.faults sink.old) (K.faults sink.new)
        → (result ≡ Status.BadSession) ⊎ (result ≡ Status.NoMemory) }
    ensures too_many { (bytes : List ℕ) → IsRunOver (map string_bytes words.now) (S.left source.old) bytes
        → max_session < length bytes
        → ¬ HasRisen (S.faults source.old) (S.faults source.new) → ¬ HasRisen (K.faults sink.old) (K.faults sink.new)
        → (result ≡ Status.TooLarge) ⊎ (result ≡ Status.NoMemory) }
{
    served(rt, alloc, words, source, sink, rules, gate)
}

/// The same, with one clause that goes by the status.
fn served<R, S, K, G>(
    rt: &R,
    alloc: Global,
    words: &[String],
    source: &mut S,
    sink: &mut K,
    rules: Vec<Box<dyn Rule>>,
    gate: &G,
) -> Status
where
    R: Threads + Wait + Sync,
    S: Source,
    K: Sink,
    G: Gate + Sync,
    ensures { Ends (map string_bytes words.now) (map (λ rule. state rule) rules.items) (source.new ≡ source.old) (sink.new ≡ sink.old)
        (record { bytes = S.left source.old; faults = S.faults source.old })
        (record { bytes = S.left source.new; faults = S.faults source.new })
        (record { bytes = K.held sink.old; faults = K.faults sink.old })
        (record { bytes = K.held sink.new; faults = K.faults sink.new }) result }
{
    let options = match spoken(alloc, words) {
        Ok(Spoken::Run(options)) => options,
        Ok(Spoken::Make(n)) => return make(rt, alloc, n, sink, gate),
        Ok(Spoken::Usage) => return say(sink, USAGE_LINE, Status::Usage),
        Err(AllocError) => return Status::NoMemory,
    };
    let bytes = match read_session(alloc, source) {
        Ok(bytes) => bytes,
        Err(ReadError::TooLarge) => return say(sink, TOO_LARGE_LINE, Status::TooLarge),
        Err(ReadError::Failed) => return Status::ReadFault,
        Err(ReadError::NoMemory) => return Status::NoMemory,
    };
    match reply_to(rt, alloc, options, rules, bytes, gate) {
        Ok(reply) => say(sink, &reply.text, reply.status),
        Err(AllocError) => Status::NoMemory,
    }
}

/// Runs the generated session of so many modules, and writes its summary.
fn make<R, K, G>(rt: &R, alloc: Global, n: u32, sink: &mut K, gate: &G) -> Status
where
    R: Threads + Wait + Sync,
    K: Sink,
    G: Gate + Sync,
    requires { IsInLimit (Spoken.Make n) }
    ensures { IsMadeOrCutShort n (sink.new ≡ sink.old) (record { bytes = K.held sink.old; faults = K.faults sink.old })
        (record { bytes = K.held sink.new; faults = K.faults sink.new }) result }
{
    match summary_of(rt, alloc, n, gate) {
        Ok(text) => say(sink, &text, Status::Done),
        Err(AllocError) => Status::NoMemory,
    }
}

/// The summary of the run of the generated session of so many modules.
fn summary_of<R, G>(rt: &R, alloc: Global, n: u32, gate: &G) -> Result<Vec<u8>, NoMemory>
where
    R: Threads + Wait + Sync,
    G: Gate + Sync,
    requires { IsInLimit (Spoken.Make n) }
    ensures { IfOk result (λ text. IsSummaryOf n text.items) }
{
    let script = made_session(alloc, n)?;
    let options = Options {
        budget: None,
        serial: true,
        lint: false,
    };
    let ran = run(rt, alloc, options, script, gate)?;
    summary(alloc, n, ran.records.items())
}

/// Writes the text before the run ends with this status.
fn say<K: Sink>(sink: &mut K, text: &[u8], status: Status) -> Status
    ensures { IsWrittenOrCutShort (record { bytes = K.held sink.old; faults = K.faults sink.old })
        (record { bytes = K.held sink.new; faults = K.faults sink.new }) text.now status result }
{
    match write_text(sink, text) {
        Ok(()) => status,
        Err(_) => Status::WriteFault,
    }
}

/// The report of the session that these bytes are, in a run with these options, or the line for bytes that are none.
fn reply_to<R, G>(
    rt: &R,
    alloc: Global,
    options: Options,
    rules: Vec<Box<dyn Rule>>,
    bytes: Vec<u8>,
    gate: &G,
) -> Result<Reply, NoMemory>
where
    R: Threads + Wait + Sync,
    G: Gate + Sync,
    ensures { IfOk result (λ reply. IsOutputForSession options (map (λ rule. state rule) rules.items) bytes.items reply.status reply.text.items) }
{
    let read = script(alloc, &bytes);
    // The session has its own texts, so its bytes need not stay.
    drop(bytes);
    match read {
        Ok(script) => report_of(rt, alloc, options, rules, script, gate),
        Err(BadSession::NotJson) => refusal(Vec::from_slice(alloc, NOT_JSON_LINE)?),
        Err(BadSession::Shape { path }) => {
            refusal_at(alloc, b"bad session: shape at ", path.items())
        }
        Err(BadSession::Limit { which, number }) => refusal(limit_line(alloc, which, number)?),
        Err(BadSession::NoMemory) => Err(AllocError),
    }
}

/// The report of a session.
fn report_of<R, G>(
    rt: &R,
    alloc: Global,
    options: Options,
    rules: Vec<Box<dyn Rule>>,
    script: Script,
    gate: &G,
) -> Result<Reply, NoMemory>
where
    R: Threads + Wait + Sync,
    G: Gate + Sync,
    requires limits { AreInLimits script.clients }
    requires opening { IsOpening script.files }
    ensures status { IfOk result (λ reply. reply.status ≡ Status.Done) }
    ensures text { IfOk result (λ reply. (entries : List Entry) × (records : List (List Record)) × Honest options script entries records × IsTextOf options (map (λ rule. state rule) rules.items) (last_files script entries) entries records reply.text.items) }
{
    let ran = run(rt, alloc, options, script, gate)?;
    let entries = told_entries(alloc, &ran.history)?;
    Ok(Reply {
        status: Status::Done,
        text: text_of(
            alloc,
            options,
            rules,
            &ran.history,
            &entries,
            ran.records.items(),
        )?,
    })
}

fn refusal(text: Vec<u8>) -> Result<Reply, NoMemory>
    ensures { IfOk result (λ reply. (reply.status ≡ Status.BadSession) × (reply.text.items ≡ text.items)) }
{
    Ok(Reply {
        status: Status::BadSession,
        text,
    })
}

/// The refusal that the words and the path say.
fn refusal_at(alloc: Global, words: &[u8], path: &[u8]) -> Result<Reply, NoMemory>
    ensures { IfOk result (λ reply. (reply.status ≡ Status.BadSession) × (reply.text.items ≡ ended (words.now ++ path.now))) }
{
    let mut text = Vec::from_slice(alloc, words)?;
    text.extend_from_slice(path)?;
    text.push(b'\n')?;
    refusal(text)
}

fn word_of(which: Which) -> &'static [u8]
    ensures { result.now ≡ word_of which }
{
    match which {
        Which::Files => b"files",
        Which::Bytes => b"bytes",
        Which::Clients => b"clients",
        Which::Commands => b"commands",
        Which::Edits => b"edits",
        Which::Budget => b"budget",
    }
}

/// `bad session: limit <which> <number>`
fn limit_line(alloc: Global, which: Which, number: u64) -> Result<Vec<u8>, NoMemory>
    ensures { IfOk result (λ line. line.items ≡ limit_line which number) }
{
    let mut line = Vec::from_slice(alloc, b"bad session: limit ")?;
    line.extend_from_slice(word_of(which))?;
    line.push(b' ')?;
    line.extend_from_slice(Buffer::new().format(number).as_bytes())?;
    line.push(b'\n')?;
    Ok(line)
}
