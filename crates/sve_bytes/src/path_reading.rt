ghost use Rattle.std.specs.Prelude.{◌≡◌, ℕ, ◌+◌, ◌-◌, ◌^◌, if◌then◌else◌, ◌<◌, ◌≤◌, ◌∷◌, [], ◌++◌, List, IfOk, OnOk, IsErrOf, length};
ghost use Rattle.sve_bytes.specs.PathReading.{IsIndex, Spells, StopsAt, AreReadable, ReadsAs};
ghost use Rattle.sve_bytes.specs.PathText.{path_text};
ghost use Rattle.sve_bytes.specs.PathStages.{step_found, signed_value, IsSize, Stands, GoesOn, IsWhole};

use crate::name::MAX_NAME_LEN;
use crate::{
    BadName, Name, NoMemory, Path, Step, begins_identifier, continues_identifier, is_keyword,
};
use std::alloc::{AllocError, Global};
use thiserror::Error;

/// Why a text is no path.
#[derive(Debug, Drop, Error)]
pub enum BadPath {
    /// So many bytes of the text begin a path, and no more.
    #[error("no path goes on at byte {0}")]
    At(usize),
    /// There was no memory for the path.
    #[error("no memory for a path")]
    NoMemory,
}

/// A step as it stands in a text.
#[derive(Clone, Copy)]
struct Found<'a> {
    name: &'a [u8],
    index: Option<i32>,
}

/// How far a reader has come in a step.
#[derive(Clone, Copy)]
enum Stage<'a> {
    /// Before its first byte.
    Before,
    /// In a simple identifier or a keyword.
    Simple,
    /// In an escaped identifier, after its backslash.
    Escaped,
    /// After a step, which a `[` may still give an index.
    Whole(Found<'a>),
    /// After the `[` behind this name.
    Open(&'a [u8]),
    /// After the `-` of the index of this name.
    Minus(&'a [u8]),
    /// In the digits of the index of this name, without the sign at most 2^31.
    Digits(&'a [u8], bool, u32),
}

fn whole<'a>(stage: Stage<'a>, so_far: &'a [u8]) -> Option<Found<'a>>
    requires { Stands so_far.now stage }
    ensures { IsWhole so_far.now result }
{
    match stage {
        Stage::Simple => {
            if is_keyword(so_far) {
                return None;
            }
            Some(Found {
                name: so_far,
                index: None,
            })
        }
        Stage::Whole(found) => Some(found),
        Stage::Before
        | Stage::Escaped
        | Stage::Open(_)
        | Stage::Minus(_)
        | Stage::Digits(_, _, _) => None,
    }
}

fn after_nothing<'a>(byte: u8) -> Option<Stage<'a>>
    ensures { GoesOn [] byte result }
{
    if begins_identifier(byte) {
        Some(Stage::Simple)
    } else if byte == b'\\' {
        Some(Stage::Escaped)
    } else {
        None
    }
}

fn after_simple<'a>(so_far: &'a [u8], byte: u8) -> Option<Stage<'a>>
    requires { Stands so_far.now Stage.Simple }
    ensures { GoesOn so_far.now byte result }
{
    if continues_identifier(byte) {
        if so_far.len() == MAX_NAME_LEN {
            return None;
        }
        return Some(Stage::Simple);
    }
    if byte == b'[' && !is_keyword(so_far) {
        return Some(Stage::Open(so_far));
    }
    None
}

fn after_escaped<'a>(so_far: &'a [u8], byte: u8) -> Option<Stage<'a>>
    requires { Stands so_far.now Stage.Escaped }
    ensures { GoesOn so_far.now byte result }
{
    let Some((_, name)) = so_far.split_first() else {
        unreachable!()
    };
    if byte.is_ascii_graphic() {
        if name.len() == MAX_NAME_LEN {
            return None;
        }
        return Some(Stage::Escaped);
    }
    if byte == b' ' && !name.is_empty() {
        return Some(Stage::Whole(Found { name, index: None }));
    }
    None
}

fn after_whole<'a>(found: Found<'a>, byte: u8) -> Option<Stage<'a>>
    ensures { (so_far : List ℕ) → Stands so_far (Stage.Whole found.entry) → GoesOn so_far byte result }
{
    if byte == b'[' && found.index.is_none() {
        return Some(Stage::Open(found.name));
    }
    None
}

fn after_open<'a>(name: &'a [u8], byte: u8) -> Option<Stage<'a>>
    ensures { (so_far : List ℕ) → Stands so_far (Stage.Open name.entry) → GoesOn so_far byte result }
{
    if byte.is_ascii_digit() {
        return Some(Stage::Digits(name, false, u32::from(byte - b'0')));
    }
    if byte == b'-' {
        return Some(Stage::Minus(name));
    }
    None
}

fn after_minus<'a>(name: &'a [u8], byte: u8) -> Option<Stage<'a>>
    ensures { (so_far : List ℕ) → Stands so_far (Stage.Minus name.entry) → GoesOn so_far byte result }
{
    if byte.is_ascii_digit() && byte != b'0' {
        return Some(Stage::Digits(name, true, u32::from(byte - b'0')));
    }
    None
}

fn signed(negative: bool, size: u32) -> i32
    requires { IsSize negative size }
    ensures { result ≡ signed_value negative size }
{
    if negative {
        (-i64::from(size)) as i32
    } else {
        size as i32
    }
}

fn greatest_size(negative: bool) -> u64
    ensures { result ≡ (if negative then 2 ^ 31 else 2 ^ 31 - 1) }
{
    if negative { 1 << 31 } else { (1 << 31) - 1 }
}

fn after_digits<'a>(name: &'a [u8], negative: bool, size: u32, byte: u8) -> Option<Stage<'a>>
    requires { IsSize negative size }
    ensures { (so_far : List ℕ) → Stands so_far (Stage.Digits name.entry negative size) → GoesOn so_far byte result }
{
    if byte == b']' {
        let index = Some(signed(negative, size));
        return Some(Stage::Whole(Found { name, index }));
    }
    if !byte.is_ascii_digit() || size == 0 {
        return None;
    }
    let longer = u64::from(size) * 10 + u64::from(byte - b'0');
    if longer > greatest_size(negative) {
        return None;
    }
    Some(Stage::Digits(name, negative, longer as u32))
}

fn next<'a>(stage: Stage<'a>, so_far: &'a [u8], byte: u8) -> Option<Stage<'a>>
    requires { Stands so_far.now stage }
    ensures { GoesOn so_far.now byte result }
{
    match stage {
        Stage::Before => after_nothing(byte),
        Stage::Simple => after_simple(so_far, byte),
        Stage::Escaped => after_escaped(so_far, byte),
        Stage::Whole(found) => after_whole(found, byte),
        Stage::Open(name) => after_open(name, byte),
        Stage::Minus(name) => after_minus(name, byte),
        Stage::Digits(name, negative, size) => after_digits(name, negative, size, byte),
    }
}

fn push_found(alloc: Global, steps: &mut Vec<Step>, found: Found<'_>) -> Result<(), NoMemory>
    requires not_empty { 0 < length found.name.now }
    requires in_limit { length found.name.now ≤ 1024 }
    ensures { OnOk result (steps.new.items ≡ steps.old.items ++ step_found found.entry ∷ []) }
{
    match Name::of(alloc, found.name) {
        Ok(name) => {
            steps.push(Step {
                name,
                index: found.index,
            })?;
            Ok(())
        }
        Err(BadName::NoMemory) => Err(AllocError),
        Err(BadName::Empty) => unreachable!(),
        Err(BadName::TooLong(_)) => unreachable!(),
    }
}

impl From<NoMemory> for BadPath {
    ghost use Rattle.std.specs.Prelude.{◌≡◌};
    ghost use Rattle.sve_bytes.specs.declared.path_reading.BadPath.TheVariants.{NoMemory};

    ghost from_gives = { λ _ e. e ≡ NoMemory };

    fn from(_e: NoMemory) -> BadPath {
        BadPath::NoMemory
    }
}

impl Path {
    /// The path that this text spells: steps joined by dots, each a name and, for a block of a loop, its index in
    /// brackets, in canonical decimal. A name is a simple identifier (IEEE 1800-2017, 5.6) or a backslash, 1 to 1,024
    /// bytes from 0x21 to 0x7E and one space (5.6.1). The empty text is the path without steps.
    ///
    /// # Errors
    /// `At` where the text spells no path: so many bytes of it begin one, and no more.
    pub fn read(alloc: Global, text: &[u8]) -> Result<Path, BadPath>
        ensures path { IfOk result (λ p. Spells text.now p.steps) }
        ensures only { IfOk result (λ p. (steps : List Step) → Spells text.now steps → steps ≡ p.steps) }
        ensures at { (n : ℕ) → IsErrOf result (BadPath.At n) → StopsAt text.now n }
        ensures printed { (steps : List Step) → AreReadable steps → text.now ≡ path_text steps → ReadsAs result steps }
    {
        let mut steps = Vec::new(alloc);
        if text.is_empty() {
            return Ok(Path {
                steps: crate::List::of(steps),
            });
        }
        let mut start = 0;
        let mut stage = Stage::Before;
        'bytes: for (at, byte) in text.iter().enumerate() {
            let so_far = &text[start..at];
            if *byte == b'.' {
                if let Some(found) = whole(stage, so_far) {
                    push_found(alloc, &mut steps, found)?;
                    start = at + 1;
                    stage = Stage::Before;
                    continue;
                }
            }
            match next(stage, so_far, *byte) {
                Some(further) => stage = further,
                None => return Err(BadPath::At(at)),
            }
        }
        match whole(stage, &text[start..]) {
            Some(found) => {
                push_found(alloc, &mut steps, found)?;
                Ok(Path {
                    steps: crate::List::of(steps),
                })
            }
            None => Err(BadPath::At(text.len())),
        }
    }
}
