ghost use Rattle.std.specs.Prelude.{◌≡◌, ℕ, List, ◌<◌, ◌≤◌, ◌∷◌, ◌&&◌, ◌||◌, not, length, Option, OnOk, IfOk, reverse, codes, is_some, true, false, Some};
ghost use Rattle.sve_unread.specs.Bytes.{ahead};
ghost use Rattle.sve_diag.specs.declared.code.Code.TheVariants.{P10};
ghost use Rattle.sve_prep.specs.Conditionals.{in_next_group};

use crate::condition::Condition;
use crate::name::name_of;
use crate::work::Work;
use std::alloc::Global;
use sve_bytes::NoMemory;
use sve_diag::{Code, Place};
use sve_directive::{Conditional, MacroName};

/// The condition at its next group, which is its last one or not.
fn in_next_group(condition: Condition, holds: bool, last: bool) -> Condition
    ensures { result ≡ in_next_group holds last condition }
{
    let Condition {
        depth,
        end_place,
        outer,
        taken,
        active: _,
        after_else: _,
    } = condition;
    Condition {
        depth,
        end_place,
        outer,
        taken: taken || holds,
        active: outer && !taken && holds,
        after_else: last,
    }
}

impl Work {
    ghost use Rattle.sve_prep.specs.Conditionals.{is_defined, new_condition, open_conditional, is_own, may_have_group, next_group, end_conditional, follow_conditional};
    ghost use Rattle.sve_prep.specs.State.{forward, refuse};
    ghost use Rattle.sve_prep.specs.View.{Becomes, view};

    /// Whether a macro of this name is defined.
    fn is_defined(&self, name: &MacroName) -> bool
        ensures { (asked : Option (List (List ℕ))) → result ≡ is_defined name.now (view self.now asked) }
    {
        match name {
            MacroName::Name(name) => self.table.find(name).is_some(),
            MacroName::TooLong => false,
        }
    }

    /// The condition of a conditional that begins at the next byte.
    fn new_condition(&self, holds: bool) -> Result<Condition, NoMemory>
        requires begun { 0 < length self.now.rest }
        ensures { IfOk result (λ c. (asked : Option (List (List ℕ))) → c ≡ new_condition holds (view self.now asked)) }
    {
        let reading = self.is_reading();
        Ok(Condition {
            depth: self.rest.depth(),
            end_place: Place {
                file: self.rest.file().copy()?,
                offset: self.rest.end_offset(),
            },
            outer: reading,
            taken: holds,
            active: reading && holds,
            after_else: false,
        })
    }

    /// Opens a condition, and goes on by some bytes.
    fn push_condition(&mut self, condition: Condition, count: usize) -> Result<(), NoMemory>
        requires begun { 0 < length self.old.rest }
        requires within { count ≤ length (ahead self.old.rest) }
        ensures { OnOk result (Becomes self.old self.new (λ s. forward count (record s { conditions = condition ∷ s.conditions }))) }
    {
        self.conditions.push(condition)?;
        self.rest.skip(count);
        Ok(())
    }

    /// Begins a conditional.
    fn open_conditional(&mut self, holds: bool, count: usize) -> Result<(), NoMemory>
        requires begun { 0 < length self.old.rest }
        requires within { count ≤ length (ahead self.old.rest) }
        ensures { OnOk result (Becomes self.old self.new (open_conditional holds count)) }
    {
        let condition = self.new_condition(holds)?;
        self.push_condition(condition, count)
    }

    /// Begins a conditional that asks for a macro (IEEE 1800-2017, 22.6).
    fn if_defined(&mut self, name: MacroName, count: usize) -> Result<(), NoMemory>
        requires begun { 0 < length self.old.rest }
        requires within { count ≤ length (ahead self.old.rest) }
        ensures { OnOk result (Becomes self.old self.new (λ s. open_conditional (is_defined name s) count s)) }
    {
        let holds = self.is_defined(&name);
        self.open_conditional(holds, count)
    }

    /// Begins a conditional that asks that there is no such macro (IEEE 1800-2017, 22.6).
    fn if_not_defined(&mut self, name: MacroName, count: usize) -> Result<(), NoMemory>
        requires begun { 0 < length self.old.rest }
        requires within { count ≤ length (ahead self.old.rest) }
        ensures { OnOk result (Becomes self.old self.new (λ s. open_conditional (not (is_defined name s)) count s)) }
    {
        let holds = !self.is_defined(&name);
        self.open_conditional(holds, count)
    }

    /// Whether the condition began in the text that is read.
    fn is_own(&self, condition: &Condition) -> bool
        requires { 0 < length self.now.rest }
        ensures { (asked : Option (List (List ℕ))) → result ≡ is_own condition.now (view self.now asked) }
    {
        condition.depth == self.rest.depth()
    }

    /// Whether it may have one more group.
    fn may_have_group(&self, condition: &Condition) -> bool
        requires { 0 < length self.now.rest }
        ensures { (asked : Option (List (List ℕ))) → result ≡ may_have_group condition.now (view self.now asked) }
    {
        self.is_own(condition) && !condition.after_else
    }

    /// Refuses a directive that belongs to no conditional of its text, by its name.
    fn refuse_alone(
        &mut self,
        alloc: Global,
        word: &'static [u8],
        count: usize,
    ) -> Result<(), NoMemory>
        requires begun { 0 < length self.old.rest }
        requires within { count ≤ length (ahead self.old.rest) }
        requires some { 0 < length word.now }
        requires short { length word.now ≤ 1024 }
        ensures { OnOk result (Becomes self.old self.new (refuse P10 (Some word.now) count)) }
    {
        let name = name_of(alloc, word)?;
        self.refuse(Code::P10, Some(name), count)
    }

    /// Goes on with the next group of this condition, which was the innermost one.
    fn next_group_of(
        &mut self,
        alloc: Global,
        condition: Condition,
        word: &'static [u8],
        holds: bool,
        last: bool,
        count: usize,
    ) -> Result<(), NoMemory>
        requires begun { 0 < length self.old.rest }
        requires within { count ≤ length (ahead self.old.rest) }
        requires some { 0 < length word.now }
        requires short { length word.now ≤ 1024 }
        ensures { OnOk result (Becomes self.old self.new (λ s. next_group word.now holds last (condition ∷ s.conditions) count (record s { conditions = condition ∷ s.conditions }))) }
    {
        if self.may_have_group(&condition) {
            return self.push_condition(in_next_group(condition, holds, last), count);
        }
        self.conditions.push(condition)?;
        self.refuse_alone(alloc, word, count)
    }

    /// Goes on with the next group of the innermost condition, by the directive that begins the group.
    fn next_group(
        &mut self,
        alloc: Global,
        word: &'static [u8],
        holds: bool,
        last: bool,
        count: usize,
    ) -> Result<(), NoMemory>
        requires begun { 0 < length self.old.rest }
        requires within { count ≤ length (ahead self.old.rest) }
        requires some { 0 < length word.now }
        requires short { length word.now ≤ 1024 }
        ensures { OnOk result (Becomes self.old self.new (λ s. next_group word.now holds last s.conditions count s)) }
    {
        match self.conditions.pop() {
            None => self.refuse_alone(alloc, word, count),
            Some(condition) => self.next_group_of(alloc, condition, word, holds, last, count),
        }
    }

    /// Goes on with a group that has a condition of its own (IEEE 1800-2017, 22.6).
    fn else_if(&mut self, alloc: Global, name: MacroName, count: usize) -> Result<(), NoMemory>
        requires begun { 0 < length self.old.rest }
        requires within { count ≤ length (ahead self.old.rest) }
        ensures { OnOk result (Becomes self.old self.new (λ s. next_group (codes "elsif") (is_defined name s) false s.conditions count s)) }
    {
        let holds = self.is_defined(&name);
        self.next_group(alloc, b"elsif", holds, false, count)
    }

    /// Goes on with the last group (IEEE 1800-2017, 22.6).
    fn otherwise(&mut self, alloc: Global, count: usize) -> Result<(), NoMemory>
        requires begun { 0 < length self.old.rest }
        requires within { count ≤ length (ahead self.old.rest) }
        ensures { OnOk result (Becomes self.old self.new (λ s. next_group (codes "else") true true s.conditions count s)) }
    {
        self.next_group(alloc, b"else", true, true, count)
    }

    /// Ends this condition, which was the innermost one.
    fn end_condition(
        &mut self,
        alloc: Global,
        condition: Condition,
        count: usize,
    ) -> Result<(), NoMemory>
        requires begun { 0 < length self.old.rest }
        requires within { count ≤ length (ahead self.old.rest) }
        ensures { OnOk result (Becomes self.old self.new (λ s. end_conditional (condition ∷ s.conditions) count (record s { conditions = condition ∷ s.conditions }))) }
    {
        if self.is_own(&condition) {
            self.rest.skip(count);
            return Ok(());
        }
        self.conditions.push(condition)?;
        self.refuse_alone(alloc, b"endif", count)
    }

    /// Ends a conditional (IEEE 1800-2017, 22.6).
    fn end_conditional(&mut self, alloc: Global, count: usize) -> Result<(), NoMemory>
        requires begun { 0 < length self.old.rest }
        requires within { count ≤ length (ahead self.old.rest) }
        ensures { OnOk result (Becomes self.old self.new (λ s. end_conditional s.conditions count s)) }
    {
        match self.conditions.pop() {
            None => self.refuse_alone(alloc, b"endif", count),
            Some(condition) => self.end_condition(alloc, condition, count),
        }
    }

    /// Follows a directive of conditional compilation (IEEE 1800-2017, 22.6).
    pub fn follow_conditional(
        &mut self,
        alloc: Global,
        directive: Conditional,
        count: usize,
    ) -> Result<(), NoMemory>
        requires begun { 0 < length self.old.rest }
        requires within { count ≤ length (ahead self.old.rest) }
        ensures { OnOk result (Becomes self.old self.new (follow_conditional directive count)) }
    {
        match directive {
            Conditional::Ifdef(name) => self.if_defined(name, count),
            Conditional::Ifndef(name) => self.if_not_defined(name, count),
            Conditional::Elsif(name) => self.else_if(alloc, name, count),
            Conditional::Else => self.otherwise(alloc, count),
            Conditional::Endif => self.end_conditional(alloc, count),
        }
    }
}
