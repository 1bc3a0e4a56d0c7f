ghost use Rattle.std.specs.Prelude.{◌≡◌, ◌+◌, ◌<◌, ◌≤◌, ℕ, length, drop, take, IfOk, IfSome, Some, None, IsTrue, false};
ghost use Rattle.sve_directive.specs.Bytes.{begins_with};
ghost use Rattle.sve_macro.specs.Parts.{part_of};
ghost use Rattle.sve_directive.specs.Define.{own_length, joined, continues, said, defaulted, formal_of, formal_named, formals_in, formals_of, have_distinct_names, macro_of};

use crate::bytes::{begins, past, trim};
use crate::name::read_argument;
use crate::pieces::{gap_len, uncomment};
use std::alloc::Global;
use std::collections::BTreeSet;
use sve_bytes::{List, Name, NoMemory};
use sve_macro::{Definition, Macro, part_at};

/// A formal, with its default where it has one.
type Formal = (Name, Option<List<u8>>);

/// How many bytes belong to a definition after its word.
pub fn own_len(text: &[u8]) -> usize
    ensures value { result ≡ own_length false text.now }
    ensures within { result ≤ length text.now }
{
    let mut slash = false;
    'bytes: for (i, b) in text.iter().enumerate() {
        if *b == b'\n' && !slash {
            return i;
        }
        slash = *b == b'\\';
    }
    text.len()
}

/// Whether a backslash that continues a line stands here.
fn is_continuing(text: &[u8]) -> bool
    ensures { result ≡ continues text.now }
{
    match text {
        [] => false,
        [first, rest @ ..] => *first == b'\\' && begins(rest, b'\n'),
    }
}

/// The text without the backslashes that continue a line.
fn join_lines(alloc: Global, text: &[u8]) -> Result<Vec<u8>, NoMemory>
    ensures { IfOk result (λ v. v.items ≡ joined text.now) }
{
    let mut out = Vec::new(alloc);
    for i in 0..text.len() {
        if !is_continuing(past(text, i)) {
            out.push(text[i])?;
        }
    }
    Ok(out)
}

/// What a definition says after its word.
pub fn read_said(alloc: Global, after: &[u8]) -> Result<Vec<u8>, NoMemory>
    ensures { IfOk result (λ v. v.items ≡ said after.now) }
{
    let lines = join_lines(alloc, &after[..own_len(after)])?;
    uncomment(alloc, lines.as_slice())
}

fn copied(alloc: Global, bytes: &[u8]) -> Result<List<u8>, NoMemory>
    ensures { IfOk result (λ l. l ≡ bytes.now) }
{
    Ok(List::of(Vec::from_slice(alloc, bytes)?))
}

/// The bytes of a text between two places of it.
fn between(text: &[u8], from: usize, to: usize) -> &[u8]
    ensures { result.now ≡ drop from (take to text.now) }
{
    let front = &text[..to.min(text.len())];
    &front[from.min(front.len())..]
}

/// A formal with a default, which begins at a place of the text.
fn with_default(
    alloc: Global,
    name: Name,
    text: &[u8],
    at: usize,
) -> Result<Option<(Formal, usize)>, NoMemory>
    requires { at ≤ length text.now }
    ensures value { IfOk result (λ o. o ≡ defaulted name text.now (part_of text.now at)) }
    ensures within { IfOk result (λ o. IfSome o (λ f. f.1 < length text.now)) }
{
    match part_at(alloc, text, at)? {
        None => Ok(None),
        Some(part) => {
            let value = copied(alloc, between(text, part.span.from, part.span.to))?;
            Ok(Some(((name, Some(value)), part.end)))
        }
    }
}

/// A formal whose name was read, up to a place.
fn named_formal(
    alloc: Global,
    name: Name,
    text: &[u8],
    at: usize,
) -> Result<Option<(Formal, usize)>, NoMemory>
    requires { at ≤ length text.now }
    ensures value { IfOk result (λ o. o ≡ formal_named name text.now at) }
    ensures within { IfOk result (λ o. IfSome o (λ f. f.1 < length text.now)) }
{
    let rest = past(text, at);
    if begins(rest, b'=') {
        return with_default(alloc, name, text, at + 1);
    }
    if begins(rest, b',') || begins(rest, b')') {
        return Ok(Some(((name, None), at)));
    }
    Ok(None)
}

/// The formal at the head of a text, and the place of its separator.
#[tactic(auto, unfolding(crate::specs::Define::formal_of))]
fn read_formal(alloc: Global, text: &[u8]) -> Result<Option<(Formal, usize)>, NoMemory>
    ensures value { IfOk result (λ o. o ≡ formal_of text.now) }
    ensures within { IfOk result (λ o. IfSome o (λ f. f.1 < length text.now)) }
{
    match read_argument(alloc, text)? {
        None => Ok(None),
        Some((name, n)) => {
            let at = n + gap_len(past(text, n));
            named_formal(alloc, name, text, at)
        }
    }
}

/// The formals of a list in which one must stand, and the place after its `)`.
fn read_some_formals(alloc: Global, text: &[u8]) -> Result<Option<(List<Formal>, usize)>, NoMemory>
    ensures value { IfOk result (λ o. o ≡ formals_in (length text.now) text.now) }
    ensures within { IfOk result (λ o. IfSome o (λ f. f.1 ≤ length text.now)) }
{
    let mut found = Vec::new(alloc);
    let mut at = 0;
    'formals: while at < text.len() {
        let rest = past(text, at);
        let Some((formal, end)) = read_formal(alloc, rest)? else {
            return Ok(None);
        };
        let is_last = begins(past(rest, end), b')');
        found.push(formal)?;
        at += end + 1;
        if is_last {
            return Ok(Some((List::of(found), at)));
        }
    }
    Ok(None)
}

/// The formals after their `(`, and the place after their `)`.
#[tactic(auto, unfolding(crate::specs::Define::formals_of))]
fn read_formals(alloc: Global, text: &[u8]) -> Result<Option<(List<Formal>, usize)>, NoMemory>
    ensures value { IfOk result (λ o. o ≡ formals_of text.now) }
    ensures within { IfOk result (λ o. IfSome o (λ f. f.1 ≤ length text.now)) }
{
    let gap = gap_len(text);
    if begins(past(text, gap), b')') {
        return Ok(Some((List::of(Vec::new(alloc)), gap + 1)));
    }
    read_some_formals(alloc, text)
}

/// Whether no two formals have one name.
fn are_distinct(alloc: Global, formals: &[Formal]) -> Result<bool, NoMemory>
    ensures { IfOk result (λ are. are ≡ have_distinct_names formals.now) }
{
    let mut seen = BTreeSet::new(alloc);
    for formal in formals {
        if !seen.insert(formal.0.copy()?)? {
            return Ok(false);
        }
    }
    Ok(true)
}

/// The definition that follows a macro's name.
#[tactic(auto, unfolding(crate::specs::Define::macro_of))]
fn read_definition(alloc: Global, text: &[u8]) -> Result<Option<Definition>, NoMemory>
    ensures { IfOk result (λ o. o ≡ macro_of text.now) }
{
    if !begins(text, b'(') {
        return Ok(Some(Definition {
            formals: List::of(Vec::new(alloc)),
            has_list: false,
            text: copied(alloc, trim(text))?,
        }));
    }
    let list = past(text, 1);
    let Some((formals, n)) = read_formals(alloc, list)? else {
        return Ok(None);
    };
    if !are_distinct(alloc, formals.items())? {
        return Ok(None);
    }
    Ok(Some(Definition {
        formals,
        has_list: true,
        text: copied(alloc, trim(past(list, n)))?,
    }))
}

/// The macro of what follows its name.
pub fn read_macro(alloc: Global, text: &[u8]) -> Result<Option<Macro>, NoMemory>
    ensures { IfOk result (λ o. o ≡ macro_of text.now) }
{
    match read_definition(alloc, text)? {
        None => Ok(None),
        Some(definition) => Ok(Some(Macro::of(alloc, definition)?)),
    }
}
