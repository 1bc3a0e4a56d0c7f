//! How rows spell files and events.
ghost use Rattle.std.specs.Prelude.{◌≤◌, IfSome};

use std::alloc::Global;
use sve_bytes::{List, Name, NoMemory};
use sve_row::{name_of, number_of, offset_of, parts_of, word};
use sve_sample::text_of;
use sve_text::{Edit, Mode};
use sve_world::EventOf;

/// An event as rows spell it: one that gives a snapshot back brings nothing.
pub type Spelled = EventOf<Name, ()>;

/// How many clients a word says, 1 to 16.
pub fn clients_of(word: &str) -> Option<u32>
    ensures { IfSome result (λ n. (1 ≤ n) × (n ≤ 16)) }
{
    let count = offset_of(word)?;
    if 1 <= count && count <= 16 {
        Some(count)
    } else {
        None
    }
}

/// The event that these words spell, and whose it is.
pub fn event_of(alloc: Global, words: &str) -> Result<Option<(u32, Spelled)>, NoMemory> {
    let (client, words) = word(words);
    let Some(client) = offset_of(client) else {
        return Ok(None);
    };
    let (kind, words) = word(words);
    let event = match kind {
        "begin" => Some(EventOf::Begin { client }),
        "look" => Some(EventOf::Look { client }),
        "publish" => Some(EventOf::Publish { client, fresh: () }),
        "ask" => asked(alloc, client, words)?,
        "commit" => commit_of(alloc, client, words)?,
        "refuse" => refusal_of(alloc, client, words)?,
        _ => None,
    };
    match event {
        Some(event) => Ok(Some((client, event))),
        None => Ok(None),
    }
}

/// Whether it may be cancelled, and for which revision it is: `latest`, `latest N` or `pinned`.
fn mode_of(words: &str) -> Option<(Mode, Option<u64>)> {
    let (mode, newer) = word(words);
    let mode = match mode {
        "latest" => Mode::Latest,
        "pinned" => Mode::Pinned,
        _ => return None,
    };
    if newer.is_empty() {
        return Some((mode, None));
    }
    Some((mode, Some(number_of(newer)? as u64)))
}

/// `COMMAND NAME BUDGET MODE`.
fn asked(alloc: Global, client: u32, words: &str) -> Result<Option<Spelled>, NoMemory> {
    let (command, words) = word(words);
    let (name, words) = word(words);
    let (budget, words) = word(words);
    let (Some(command), Some(budget), Some((mode, newer))) = (
        offset_of(command),
        offset_of(budget),
        mode_of(words),
    ) else {
        return Ok(None);
    };
    let Some(query) = name_of(alloc, name.as_bytes())? else {
        return Ok(None);
    };
    Ok(Some(EventOf::Answer {
        client,
        command,
        query,
        budget,
        mode,
        newer,
    }))
}

/// `COMMAND EDITS`, which is to be accepted.
fn commit_of(alloc: Global, client: u32, words: &str) -> Result<Option<Spelled>, NoMemory> {
    let (command, words) = word(words);
    let (Some(command), Some(edits)) = (offset_of(command), edits_of(alloc, words)?) else {
        return Ok(None);
    };
    Ok(Some(EventOf::Commit {
        client,
        command,
        edits,
    }))
}

/// `COMMAND EDITS`, which is to be refused.
fn refusal_of(alloc: Global, client: u32, words: &str) -> Result<Option<Spelled>, NoMemory> {
    let (command, words) = word(words);
    let (Some(command), Some(edits)) = (offset_of(command), edits_of(alloc, words)?) else {
        return Ok(None);
    };
    Ok(Some(EventOf::Refuse {
        client,
        command,
        edits,
    }))
}

/// Edits with `, ` between them; nothing for none.
fn edits_of(alloc: Global, words: &str) -> Result<Option<List<Edit>>, NoMemory> {
    let mut edits = Vec::new(alloc);
    if !words.is_empty() {
        for one in parts_of(alloc, words, ", ")? {
            let Some(edit) = edit_of(alloc, one)? else {
                return Ok(None);
            };
            edits.push(edit)?;
        }
    }
    Ok(Some(List::of(edits)))
}

/// `put NAME TEXT`, `drop NAME` or `splice NAME BASE AT CUT TEXT`; a text of no byte may be left out.
fn edit_of(alloc: Global, words: &str) -> Result<Option<Edit>, NoMemory> {
    let (kind, words) = word(words);
    let (name, words) = word(words);
    let Some(name) = name_of(alloc, name.as_bytes())? else {
        return Ok(None);
    };
    match kind {
        "put" => Ok(Some(Edit::Put {
            name,
            text: text_of(alloc, words)?,
        })),
        "drop" => Ok(Some(Edit::Drop { name })),
        "splice" => splice_of(alloc, name, words),
        _ => Ok(None),
    }
}

fn splice_of(alloc: Global, name: Name, words: &str) -> Result<Option<Edit>, NoMemory> {
    let (base, words) = word(words);
    let (at, words) = word(words);
    let (cut, words) = word(words);
    let (Some(base), Some(at), Some(cut)) = (number_of(base), offset_of(at), offset_of(cut)) else {
        return Ok(None);
    };
    Ok(Some(Edit::Splice {
        name,
        base: base as u64,
        at,
        cut,
        text: text_of(alloc, words)?,
    }))
}
