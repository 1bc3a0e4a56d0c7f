ghost use Rattle.std.specs.Prelude.{◌≡◌, ℕ, ◌+◌, ◌*◌, ◌<◌, ◌≤◌, ◌^◌, ◌++◌, ◌∷◌, [], List, Option, Some, None, length, IfOk, OnOk, true, false, not, codes};
ghost use Rattle.std.specs.Fmt.{decimal};
ghost use Rattle.sve_unread.specs.Bytes.{ahead};
ghost use Rattle.sve_unread.specs.Head.{head_origin, head_line};

use crate::work::Work;
use std::alloc::Global;
use sve_bytes::{Name, NetType, NoMemory};
use sve_diag::Code;
use sve_directive::{LocalDirective, MacroDirective, MacroName, Refusal, SourceText};
use sve_macro::Macro;

/// A name in quotes.
fn quoted(alloc: Global, name: &Name) -> Result<Vec<u8>, NoMemory>
    ensures text { IfOk result (λ v. v.items ≡ 34 ∷ name.now ++ 34 ∷ []) }
    ensures short { IfOk result (λ v. length v.items ≤ 1026) }
{
    let mut text = Vec::from_slice(alloc, b"\"")?;
    text.extend_from_slice(name.bytes())?;
    text.push(b'"')?;
    Ok(text)
}

impl Work {
    ghost use Rattle.sve_prep.specs.State.{stand_for, set_net_type};
    ghost use Rattle.sve_prep.specs.Uses.{file_text, line_text, source_text};
    ghost use Rattle.sve_prep.specs.Step.{define, undefine, undefine_all, change_macros, refuse_directive, follow};
    ghost use Rattle.sve_prep.specs.View.{Becomes, Leads, view};

    fn define(&mut self, name: Name, definition: Macro, count: usize) -> Result<(), NoMemory>
        requires within { count ≤ length (ahead self.old.rest) }
        ensures { OnOk result (Becomes self.old self.new (define name definition count)) }
    {
        self.table.define(name, definition)?;
        self.rest.skip(count);
        Ok(())
    }

    fn undefine(&mut self, name: MacroName, count: usize)
        requires within { count ≤ length (ahead self.old.rest) }
        ensures { Becomes self.old self.new (undefine name count) }
    {
        match name {
            MacroName::Name(name) => {
                self.table.undefine(&name);
                self.rest.skip(count);
            }
            MacroName::TooLong => self.rest.skip(count),
        }
    }

    fn undefine_all(&mut self, count: usize)
        requires within { count ≤ length (ahead self.old.rest) }
        ensures { Becomes self.old self.new (undefine_all count) }
    {
        self.table.clear();
        self.rest.skip(count);
    }

    fn set_net_type(&mut self, net_type: NetType, count: usize) -> Result<(), NoMemory>
        requires within { count ≤ length (ahead self.old.rest) }
        ensures { OnOk result (Becomes self.old self.new (set_net_type net_type count)) }
    {
        self.net_types.push((self.out.len(), net_type))?;
        self.net_type = net_type;
        self.rest.skip(count);
        Ok(())
    }

    /// Writes a text for the next bytes, which is not read.
    fn stand_for(&mut self, count: usize, text: &[u8]) -> Result<(), NoMemory>
        requires begun { 0 < length self.old.rest }
        requires within { count ≤ length (ahead self.old.rest) }
        requires some { 0 < length text.now }
        requires room { length self.old.out + length text.now < 2 ^ 32 }
        ensures { OnOk result (Becomes self.old self.new (stand_for count text.now)) }
    {
        self.out
            .push(text, self.rest.file(), self.rest.offset(), false)?;
        self.rest.skip(count);
        Ok(())
    }

    fn write_file(&mut self, alloc: Global, count: usize) -> Result<(), NoMemory>
        requires begun { 0 < length self.old.rest }
        requires within { count ≤ length (ahead self.old.rest) }
        requires room { length self.old.out + 1026 < 2 ^ 32 }
        ensures { OnOk result (Becomes self.old self.new (λ s. stand_for count (file_text s) s)) }
    {
        let text = quoted(alloc, self.rest.file())?;
        self.stand_for(count, text.as_slice())
    }

    fn write_line(&mut self, alloc: Global, count: usize) -> Result<(), NoMemory>
        requires begun { 0 < length self.old.rest }
        requires within { count ≤ length (ahead self.old.rest) }
        requires room { length self.old.out + 1026 < 2 ^ 32 }
        ensures { OnOk result (Becomes self.old self.new (λ s. stand_for count (line_text s) s)) }
    {
        let line = self.rest.line();
        let text = format!(in alloc; "{line}")?;
        self.stand_for(count, text.as_bytes())
    }

    /// Writes what a directive stands for (IEEE 1800-2017, 22.13).
    fn write_source_text(
        &mut self,
        alloc: Global,
        text: SourceText,
        count: usize,
    ) -> Result<(), NoMemory>
        requires begun { 0 < length self.old.rest }
        requires within { count ≤ length (ahead self.old.rest) }
        requires room { length self.old.out + 1026 < 2 ^ 32 }
        ensures { OnOk result (Becomes self.old self.new (λ s. stand_for count (source_text text s) s)) }
    {
        match text {
            SourceText::File => self.write_file(alloc, count),
            SourceText::Line => self.write_line(alloc, count),
        }
    }

    /// Changes which macros are defined (IEEE 1800-2017, 22.5).
    fn change_macros(&mut self, directive: MacroDirective, count: usize) -> Result<(), NoMemory>
        requires within { count ≤ length (ahead self.old.rest) }
        ensures { OnOk result (Becomes self.old self.new (change_macros directive count)) }
    {
        match directive {
            MacroDirective::Define { name, definition } => self.define(name, definition, count),
            MacroDirective::Undef(name) => {
                self.undefine(name, count);
                Ok(())
            }
            MacroDirective::UndefineAll => {
                self.undefine_all(count);
                Ok(())
            }
        }
    }

    /// Reports what is no directive of this profile, and drops it.
    fn refuse_directive(&mut self, refusal: Refusal, count: usize) -> Result<(), NoMemory>
        requires begun { 0 < length self.old.rest }
        requires within { count ≤ length (ahead self.old.rest) }
        ensures { OnOk result (Becomes self.old self.new (refuse_directive refusal count)) }
    {
        match refusal {
            Refusal::Keywords(name) => self.refuse(Code::P03, Some(name), count),
            Refusal::Malformed(name) => self.refuse(Code::P01, name, count),
            Refusal::LongUse(name) => self.refuse(Code::P02, Some(name), count),
        }
    }

    /// A directive or a use that needs no other file. Whether the expansion goes on.
    pub fn follow(
        &mut self,
        alloc: Global,
        directive: LocalDirective,
        count: usize,
    ) -> Result<bool, NoMemory>
        requires begun { 0 < length self.old.rest }
        requires within { count ≤ length (ahead self.old.rest) }
        requires bounded { self.old.work ≤ 4194304 }
        requires room { length self.old.out + 1026 < 2 ^ 32 }
        ensures { IfOk result (λ on. Leads on self.old self.new (follow directive count)) }
    {
        match directive {
            LocalDirective::Conditional(directive) => {
                self.follow_conditional(alloc, directive, count)?;
                Ok(true)
            }
            LocalDirective::Macros(directive) => {
                self.change_macros(directive, count)?;
                Ok(true)
            }
            LocalDirective::NetType(net_type) => {
                self.set_net_type(net_type, count)?;
                Ok(true)
            }
            LocalDirective::Text(text) => {
                self.write_source_text(alloc, text, count)?;
                Ok(true)
            }
            LocalDirective::Ignored => {
                self.rest.skip(count);
                Ok(true)
            }
            LocalDirective::Refused(refusal) => {
                self.refuse_directive(refusal, count)?;
                Ok(true)
            }
            LocalDirective::Use(name) => self.use_macro(alloc, name, count),
        }
    }
}
