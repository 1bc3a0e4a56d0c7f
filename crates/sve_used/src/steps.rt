//! The steps of hierarchical names.
ghost use Rattle.std.specs.Prelude.{◌≡◌, IfOk, option_map};
ghost use Rattle.std.specs.List.{fold};
ghost use Rattle.sve_rule.specs.Judged.{judged};
ghost use Rattle.sve_known.specs.Naming.{name_at};
ghost use Rattle.sve_scoped.specs.Known.{told_in};
ghost use Rattle.sve_used.specs.Steps.{after_postfix, after_select, begun, constant_index, index_at, index_of, over, path_of, with_index, with_member, with_postfix, with_select};

use std::alloc::Global;
use sve_bytes::{List, Name, NoMemory, Path, Step};
use sve_contents::Contents;
use sve_known::name_at;
use sve_measure::operand;
use sve_rule::Judged;
use sve_scoped::{Text, around, ended, endless};
use sve_tree::{Postfix, Range, Select};
use sve_value::Bits;

/// A hierarchical name as far as it is read.
#[derive(Drop)]
pub(crate) struct Reading {
    /// The steps in front of the last one.
    pub(crate) before: List<Step>,
    /// The last step.
    pub(crate) last: Step,
    /// Whether something is selected of the last step that is no member and no constant index, so that the name ends there.
    pub(crate) is_over: bool,
}

/// The index of a block that a value stands for.
fn index_of(value: Bits) -> Option<i32>
    ensures { result ≡ index_of value }
{
    match value.integer() {
        None => None,
        Some(number) => {
            if -2_147_483_648 <= number && number < 2_147_483_648 {
                return Some(number as i32);
            }
            None
        }
    }
}

/// The index that an expression is, where it is a constant.
fn constant_index(constant: Judged) -> Option<i32>
    ensures { result ≡ constant_index (judged constant) }
{
    match constant {
        Ok(operand) => index_of(operand.own_value()),
        Err(_) => None,
    }
}

/// The index in brackets, where it is a constant.
fn index_at(
    alloc: Global,
    text: Text<'_>,
    contents: &Contents,
    range: &Range,
) -> Result<Option<i32>, NoMemory>
    ensures { IfOk result (λ i. i ≡ index_at (told_in text.entry.packages.now text.entry.words.now contents.now) range.now) }
{
    match range {
        Range::Index { index } => {
            let env = around(alloc, text, contents);
            let constant = ended(operand(alloc, index, &env, &mut endless()))?;
            Ok(constant_index(constant))
        }
        Range::Between { .. } | Range::Upward { .. } | Range::Downward { .. } => Ok(None),
    }
}

impl Reading {
    /// A name begins.
    pub(crate) fn begun(alloc: Global, name: Name) -> Reading
        ensures { result ≡ begun name }
    {
        Reading {
            before: List::of(Vec::new(alloc)),
            last: Step { name, index: None },
            is_over: false,
        }
    }

    /// The name ends.
    fn over(self) -> Reading
        ensures { result ≡ over self }
    {
        let Reading {
            before,
            last,
            is_over: _,
        } = self;
        Reading {
            before,
            last,
            is_over: true,
        }
    }

    /// A member more.
    fn with_member(self, member: Option<&Name>) -> Result<Reading, NoMemory>
        ensures { IfOk result (λ r. r ≡ with_member self (option_map (λ n. n.now) member.entry)) }
    {
        let Some(member) = member else {
            return Ok(self.over());
        };
        let Reading {
            before,
            last,
            is_over: _,
        } = self;
        let mut before = before.into_vec();
        before.push(last)?;
        Ok(Reading {
            before: List::of(before),
            last: Step {
                name: member.copy()?,
                index: None,
            },
            is_over: false,
        })
    }

    /// An index behind the last step.
    fn with_index(self, index: Option<i32>) -> Reading
        ensures { result ≡ with_index self index }
    {
        if index.is_none() || self.last.index.is_some() {
            return self.over();
        }
        let Reading {
            before,
            last,
            is_over,
        } = self;
        let Step { name, index: _ } = last;
        Reading {
            before,
            last: Step { name, index },
            is_over,
        }
    }

    /// A select more.
    fn with_select(
        self,
        alloc: Global,
        text: Text<'_>,
        contents: &Contents,
        select: &Select,
    ) -> Result<Reading, NoMemory>
        ensures { IfOk result (λ r. r ≡ with_select (told_in text.entry.packages.now text.entry.words.now contents.now) text.entry.words.now self select.now) }
    {
        match select {
            Select::Member { name, .. } => self.with_member(name_at(text.words, *name)),
            Select::Range { select } => {
                let index = index_at(alloc, text, contents, &select.range)?;
                Ok(self.with_index(index))
            }
        }
    }

    /// One thing more that is applied.
    fn with_postfix(
        self,
        alloc: Global,
        text: Text<'_>,
        contents: &Contents,
        postfix: &Postfix,
    ) -> Result<Reading, NoMemory>
        ensures { IfOk result (λ r. r ≡ with_postfix (told_in text.entry.packages.now text.entry.words.now contents.now) text.entry.words.now self postfix.now) }
    {
        match postfix {
            Postfix::Select { select } => self.with_select(alloc, text, contents, select),
            Postfix::Call { .. } | Postfix::Cast { .. } | Postfix::Pattern { .. } => {
                Ok(self.over())
            }
        }
    }

    /// Behind a select, which is no part of the name where the name has ended.
    fn after_select(
        self,
        alloc: Global,
        text: Text<'_>,
        contents: &Contents,
        select: &Select,
    ) -> Result<Reading, NoMemory>
        ensures { IfOk result (λ r. r ≡ after_select (told_in text.entry.packages.now text.entry.words.now contents.now) text.entry.words.now self select.now) }
    {
        if self.is_over {
            return Ok(self);
        }
        self.with_select(alloc, text, contents, select)
    }

    /// The same behind what is applied.
    fn after_postfix(
        self,
        alloc: Global,
        text: Text<'_>,
        contents: &Contents,
        postfix: &Postfix,
    ) -> Result<Reading, NoMemory>
        ensures { IfOk result (λ r. r ≡ after_postfix (told_in text.entry.packages.now text.entry.words.now contents.now) text.entry.words.now self postfix.now) }
    {
        if self.is_over {
            return Ok(self);
        }
        self.with_postfix(alloc, text, contents, postfix)
    }

    /// Behind all that is applied.
    pub(crate) fn after_postfixes(
        self,
        alloc: Global,
        text: Text<'_>,
        contents: &Contents,
        postfixes: &[Postfix],
    ) -> Result<Reading, NoMemory>
        ensures { IfOk result (λ r. r ≡ fold (after_postfix (told_in text.entry.packages.now text.entry.words.now contents.now) text.entry.words.now) self postfixes.now) }
    {
        let mut reading = self;
        'postfixes: for postfix in postfixes {
            reading = reading.after_postfix(alloc, text, contents, postfix)?;
        }
        Ok(reading)
    }

    /// Behind all selects.
    pub(crate) fn after_selects(
        self,
        alloc: Global,
        text: Text<'_>,
        contents: &Contents,
        selects: &[Select],
    ) -> Result<Reading, NoMemory>
        ensures { IfOk result (λ r. r ≡ fold (after_select (told_in text.entry.packages.now text.entry.words.now contents.now) text.entry.words.now) self selects.now) }
    {
        let mut reading = self;
        'selects: for select in selects {
            reading = reading.after_select(alloc, text, contents, select)?;
        }
        Ok(reading)
    }

    /// The path of the name, which is read to its end.
    pub(crate) fn into_path(self) -> Result<Path, NoMemory>
        ensures { IfOk result (λ p. p ≡ path_of self) }
    {
        let Reading {
            before,
            last,
            is_over: _,
        } = self;
        let mut steps = before.into_vec();
        steps.push(last)?;
        Ok(Path {
            steps: List::of(steps),
        })
    }
}
