ghost use Rattle.std.specs.Prelude.{◌≡◌, ℕ, ◌+◌, ◌<◌, ◌≤◌, ◌^◌, length, Option, OnOk, IsTrue, reverse, not, ◌||◌};
ghost use Rattle.sve_directive.specs.Bytes.{begins_with};
ghost use Rattle.sve_directive.specs.Directives.{is_conditional_at};
ghost use Rattle.sve_unread.specs.Bytes.{ahead};

use crate::condition::Condition;
use std::alloc::Global;
use sve_bytes::{Name, NetType, NoMemory};
use sve_diag::{Code, Diag, Place};
use sve_directive::begins_conditional;
use sve_macro::Table;
use sve_origin::Output;
use sve_unread::Stack;

/// The state of an expansion.
#[derive(Drop)]
pub struct Work {
    /// The bytes that are left.
    pub rest: Stack,
    pub table: Table,
    /// The innermost stands last.
    pub conditions: Vec<Condition>,
    /// How many bytes were put up for reading, with one more for each use and include.
    pub work: u32,
    /// The net type in force.
    pub net_type: NetType,
    pub out: Output,
    pub diags: Vec<Diag>,
    pub net_types: Vec<(u32, NetType)>,
}

impl Work {
    ghost use Rattle.sve_prep.specs.State.{refuse, report, forward, copy, close, is_reading, is_left};
    ghost use Rattle.sve_prep.specs.Uses.{give_up};
    ghost use Rattle.sve_prep.specs.View.{Becomes};

    /// Adds a diagnostic at the next byte.
    pub fn report(&mut self, code: Code, arg: Option<Name>) -> Result<(), NoMemory>
        requires begun { 0 < length self.old.rest }
        ensures { OnOk result (Becomes self.old self.new (report code arg)) }
    {
        let place = Place {
            file: self.rest.file().copy()?,
            offset: self.rest.offset(),
        };
        self.diags.push(Diag { place, code, arg })?;
        Ok(())
    }

    /// Adds a diagnostic, and drops some bytes.
    pub fn refuse(&mut self, code: Code, arg: Option<Name>, count: usize) -> Result<(), NoMemory>
        requires begun { 0 < length self.old.rest }
        requires within { count ≤ length (ahead self.old.rest) }
        ensures { OnOk result (Becomes self.old self.new (refuse code arg count)) }
    {
        self.report(code, arg)?;
        self.rest.skip(count);
        Ok(())
    }

    /// Whether bytes are read, and not skipped as those of a group that is not taken.
    pub fn is_reading(&self) -> bool
        ensures { result ≡ is_reading (reverse self.now.conditions.items) }
    {
        match self.conditions.last() {
            Some(condition) => condition.active,
            None => true,
        }
    }

    /// Whether the backtick that begins this text is passed, in a group that is skipped.
    pub fn is_skipped(&self, text: &[u8]) -> bool
        requires { IsTrue (begins_with 96 text.now) }
        ensures { result ≡ not (is_reading (reverse self.now.conditions.items) || is_conditional_at text.now) }
    {
        !self.is_reading() && !begins_conditional(text)
    }

    /// Copies the next bytes, at least one.
    pub fn copy(&mut self, count: usize) -> Result<(), NoMemory>
        requires some { 0 < count }
        requires begun { 0 < length self.old.rest }
        requires within { count ≤ length (ahead self.old.rest) }
        requires room { length self.old.out + count < 2 ^ 32 }
        ensures { OnOk result (Becomes self.old self.new (copy count)) }
    {
        if self.is_reading() {
            self.rest.write(count, &mut self.out)?;
        }
        self.rest.skip(count);
        Ok(())
    }

    /// Drops all that is left: the work limit is reached.
    pub fn give_up(&mut self, alloc: Global) -> Result<(), NoMemory>
        requires begun { 0 < length self.old.rest }
        ensures { OnOk result (Becomes self.old self.new give_up) }
    {
        self.report(Code::P12, None)?;
        self.rest = Stack::new(alloc);
        self.conditions.clear();
        Ok(())
    }

    /// Whether the innermost condition began in a text that is at its end.
    pub fn is_left(&self) -> bool
        ensures { result ≡ is_left (reverse self.now.conditions.items) self.now.rest }
    {
        match self.conditions.last() {
            Some(condition) => self.rest.is_done() || self.rest.depth() < condition.depth,
            None => false,
        }
    }

    /// Reports that condition, and ends it.
    pub fn close(&mut self) -> Result<(), NoMemory>
        ensures { OnOk result (Becomes self.old self.new close) }
    {
        if let Some(condition) = self.conditions.pop() {
            self.diags.push(Diag {
                place: condition.end_place,
                code: Code::P11,
                arg: None,
            })?;
        }
        Ok(())
    }
}
