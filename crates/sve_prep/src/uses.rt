ghost use Rattle.std.specs.Prelude.{◌≡◌, ℕ, ◌+◌, ◌-◌, ◌<◌, ◌≤◌, ◌^◌, ◌++◌, ◌∷◌, [], List, Option, Some, None, map, length, IfOk, IfSome, OnOk, IsTrue, bytes_eq, nat_lt, nat_le, if◌then◌else◌};
ghost use Rattle.std.specs.List.{list_any};
ghost use Rattle.std.specs.Fmt.{decimal};
ghost use Rattle.sve_macro.specs.Macros.{macro_of};
ghost use Rattle.sve_macro.specs.Parts.{actuals_of};
ghost use Rattle.sve_macro.specs.Substitution.{accepts, substituted};
ghost use Rattle.sve_unread.specs.Bytes.{ahead};
ghost use Rattle.sve_unread.specs.Head.{height, head_origin, head_line, head_macros, head_level};
ghost use Rattle.sve_directive.specs.Bytes.{begins_with};
ghost use Rattle.sve_prep.specs.Uses.{part_in, past_blanks, list_start};

use crate::name::with_name;
use crate::work::Work;
use std::alloc::{AllocError, Global};
use std::sync::Arc;
use sve_bytes::{List, Name, NoMemory, Span, white_space_len};
use sve_diag::{Code, Place};
use sve_macro::{ActualFault, Macro, SubstFault, actuals, substitute_below};

/// An expansion does at most so much work (own).
const WORK_LIMIT: u32 = 4_194_304;

/// A use stands in the results of so many macros at most (own).
const DEEPEST_USE: usize = 64;

fn contains(names: &[Name], name: &Name) -> bool
    ensures { result ≡ list_any (bytes_eq name.now) names.now }
{
    names.iter().any(|other| name.bytes() == other.bytes())
}

/// The bytes of a part of a text.
fn part_in<'a>(text: &'a [u8], span: &Span) -> &'a [u8]
    ensures { result.now ≡ part_in text.now span.now }
{
    let rest = &text[span.from.min(text.len())..];
    &rest[..span.to.saturating_sub(span.from).min(rest.len())]
}

/// The bytes of each of these parts.
fn parts_in(alloc: Global, text: &[u8], spans: &[Span]) -> Result<Vec<List<u8>>, NoMemory>
    ensures { IfOk result (λ parts. parts.items ≡ map (part_in text.now) spans.now) }
{
    let mut parts = Vec::new(alloc);
    'spans: for span in spans {
        let part = Vec::from_slice(alloc, part_in(text, span))?;
        parts.push(List::of(part))?;
    }
    Ok(parts)
}

fn begins_with(byte: u8, text: &[u8]) -> bool
    ensures { result ≡ begins_with byte text.now }
{
    match text {
        [first, ..] => *first == byte,
        [] => false,
    }
}

/// The first place from a place on that is no white space.
fn past_blanks(text: &[u8], from: usize) -> usize
    requires { from ≤ length text.now }
    ensures place { result ≡ past_blanks text.now from }
    ensures within { result ≤ length text.now }
{
    from + white_space_len(&text[from..])
}

/// The place behind the `(` that begins a list of actuals, if one stands behind a name that ends here.
fn list_start(text: &[u8], from: usize) -> Option<usize>
    requires { from ≤ length text.now }
    ensures place { result ≡ list_start text.now from }
    ensures within { IfSome result (λ place. place ≤ length text.now) }
{
    let place = past_blanks(text, from);
    if begins_with(b'(', &text[place..]) {
        return Some(place + 1);
    }
    None
}

/// What a use of a macro comes to, before anything is done about it. The number is the length of the use.
#[derive(Drop)]
pub enum Use {
    /// It gives nothing, for this reason.
    Refused(Code, usize),
    /// It gives this text.
    Gives(List<u8>, usize),
    /// Its text would pass the work limit.
    PassesLimit,
}

impl Work {
    ghost use Rattle.sve_prep.specs.State.{use_origin, replace, stand_for};
    ghost use Rattle.sve_prep.specs.Uses.{passes, is_inside, is_too_deep, use_with, use_listed, use_opened, use_found, use_macro, file_text, line_text};
    ghost use Rattle.sve_prep.specs.Reading.{use_length, Comes};
    ghost use Rattle.sve_prep.specs.View.{Becomes, Leads, view, Fits};

    /// Puts a text in the place of the next bytes.
    pub fn replace(
        &mut self,
        count: usize,
        text: Arc<List<u8>>,
        place: Place,
        copied: bool,
        line: u32,
        macros: List<Name>,
        level: u32,
    ) -> Result<(), NoMemory>
        requires within { count ≤ length (ahead self.old.rest) }
        requires paid { self.old.work + 1 + length text.value ≤ 4194304 }
        requires deeper { length macros + level ≡ height self.old.rest + 1 }
        requires shallow { length macros + level < 2 ^ 64 }
        requires offsets { place.offset + (if copied then length text.value else 0) < 2 ^ 32 }
        requires lines { line + (if copied then length text.value else 0) < 2 ^ 32 }
        ensures { OnOk result (Becomes self.old self.new (replace count text.value (record { file = place.file; offset = place.offset; copied = copied }) line macros level)) }
    {
        let length = text.items().len() as u32;
        self.rest.skip(count);
        self.rest.open(text, place, copied, line, macros, level)?;
        self.work += 1 + length;
        Ok(())
    }

    /// A text of fewer bytes can be read too within the work limit.
    fn room(&self) -> usize
        requires { self.now.work ≤ 4194304 }
        ensures { result ≡ 4194304 - self.now.work }
    {
        (WORK_LIMIT - self.work) as usize
    }

    /// Whether reading so many bytes too would pass the work limit.
    pub fn passes(&self, text: &[u8]) -> bool
        requires { self.now.work ≤ 4194304 }
        ensures { result ≡ nat_lt 4194304 (self.now.work + 1 + length text.now) }
    {
        text.len() >= self.room()
    }

    /// Whether the next byte comes from a result of the macro.
    fn is_inside(&self, name: &Name) -> bool
        requires { 0 < length self.now.rest }
        ensures { result ≡ list_any (bytes_eq name.now) (head_macros self.now.rest) }
    {
        contains(self.rest.macros(), name)
    }

    /// Whether it comes from as many macros as a use may stand in.
    fn is_too_deep(&self) -> bool
        requires { 0 < length self.now.rest }
        ensures { result ≡ nat_le 64 (length (head_macros self.now.rest)) }
    {
        self.rest.macros().len() >= DEEPEST_USE
    }

    /// Reads a text that a use stands for in the place of the use.
    fn place_result(
        &mut self,
        alloc: Global,
        name: Name,
        count: usize,
        text: List<u8>,
    ) -> Result<(), NoMemory>
        requires begun { 0 < length self.old.rest }
        requires within { count ≤ length (ahead self.old.rest) }
        requires paid { self.old.work + 1 + length text ≤ 4194304 }
        requires nested { length (head_macros self.old.rest) < 64 }
        ensures { OnOk result (Becomes self.old self.new (λ s. replace count text (use_origin (head_origin s.rest)) (head_line s.rest) (name ∷ head_macros s.rest) (head_level s.rest) s)) }
    {
        let place = Place {
            file: self.rest.file().copy()?,
            offset: self.rest.offset(),
        };
        let line = self.rest.line();
        let macros = with_name(alloc, name, self.rest.macros())?;
        let level = self.rest.level();
        let shared = Arc::new(alloc, text)?;
        self.replace(count, shared, place, false, line, macros, level)
    }

    fn use_with(
        &self,
        alloc: Global,
        name: &Name,
        definition: &Macro,
        actuals: &[List<u8>],
        count: usize,
    ) -> Result<Use, NoMemory>
        requires begun { 0 < length self.now.rest }
        requires within { count ≤ length (ahead self.now.rest) }
        requires bounded { self.now.work ≤ 4194304 }
        ensures comes { IfOk result (λ u. Comes self.now name.now u (use_with name.now definition.now actuals.now count)) }
        ensures within { IfOk result (λ u. use_length u ≤ length (ahead self.now.rest)) }
    {
        if !definition.takes(actuals) {
            return Ok(Use::Refused(Code::P04, count));
        }
        if self.is_inside(name) {
            return Ok(Use::Refused(Code::P06, count));
        }
        if self.is_too_deep() {
            return Ok(Use::Refused(Code::P07, count));
        }
        match substitute_below(alloc, definition, actuals, self.room()) {
            Ok(Some(text)) => Ok(Use::Gives(text, count)),
            Ok(None) => Ok(Use::PassesLimit),
            Err(SubstFault::NoMemory) => Err(AllocError),
            Err(SubstFault::Count) => unreachable!(),
        }
    }

    fn use_opened(
        &self,
        alloc: Global,
        name: &Name,
        definition: &Macro,
        from: usize,
    ) -> Result<Use, NoMemory>
        requires begun { 0 < length self.now.rest }
        requires within { from ≤ length (ahead self.now.rest) }
        requires bounded { self.now.work ≤ 4194304 }
        ensures comes { IfOk result (λ u. Comes self.now name.now u (use_opened name.now definition.now 0 (Some from))) }
        ensures within { IfOk result (λ u. use_length u ≤ length (ahead self.now.rest)) }
    {
        let text = self.rest.ahead();
        match actuals(alloc, text, from) {
            Ok((spans, end)) => {
                let given = parts_in(alloc, text, spans.items())?;
                self.use_with(alloc, name, definition, given.as_slice(), end)
            }
            Err(ActualFault::Open) => Ok(Use::Refused(Code::P05, text.len())),
            Err(ActualFault::NoMemory) => Err(AllocError),
        }
    }

    fn use_found(
        &self,
        alloc: Global,
        name: &Name,
        definition: &Macro,
        count: usize,
    ) -> Result<Use, NoMemory>
        requires begun { 0 < length self.now.rest }
        requires within { count ≤ length (ahead self.now.rest) }
        requires bounded { self.now.work ≤ 4194304 }
        ensures comes { IfOk result (λ u. Comes self.now name.now u (use_found name.now count (Some definition.now))) }
        ensures within { IfOk result (λ u. use_length u ≤ length (ahead self.now.rest)) }
    {
        if !definition.definition().has_list {
            return self.use_with(alloc, name, definition, &[], count);
        }
        match list_start(self.rest.ahead(), count) {
            None => Ok(Use::Refused(Code::P04, count)),
            Some(from) => self.use_opened(alloc, name, definition, from),
        }
    }

    fn read_use(&self, alloc: Global, name: &Name, count: usize) -> Result<Use, NoMemory>
        requires begun { 0 < length self.now.rest }
        requires within { count ≤ length (ahead self.now.rest) }
        requires bounded { self.now.work ≤ 4194304 }
        ensures comes { IfOk result (λ u. Comes self.now name.now u (use_macro name.now count)) }
        ensures within { IfOk result (λ u. use_length u ≤ length (ahead self.now.rest)) }
    {
        match self.table.find(name) {
            None => Ok(Use::Refused(Code::P02, count)),
            Some(definition) => self.use_found(alloc, name, definition, count),
        }
    }

    /// A use of a macro, by its backtick and name. Whether the expansion goes on (IEEE 1800-2017, 22.5.1).
    pub fn use_macro(&mut self, alloc: Global, name: Name, count: usize) -> Result<bool, NoMemory>
        requires begun { 0 < length self.old.rest }
        requires within { count ≤ length (ahead self.old.rest) }
        requires bounded { self.old.work ≤ 4194304 }
        ensures { IfOk result (λ on. Leads on self.old self.new (use_macro name count)) }
    {
        match self.read_use(alloc, &name, count)? {
            Use::Refused(code, end) => {
                self.refuse(code, Some(name), end)?;
                Ok(true)
            }
            Use::Gives(text, end) => {
                self.place_result(alloc, name, end, text)?;
                Ok(true)
            }
            Use::PassesLimit => {
                self.give_up(alloc)?;
                Ok(false)
            }
        }
    }
}
