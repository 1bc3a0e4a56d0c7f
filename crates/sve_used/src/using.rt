//! Names that are used one after another.
ghost use Rattle.std.specs.Prelude.{◌≡◌, IfOk};
ghost use Rattle.std.specs.List.{fold};
ghost use Rattle.sve_use.specs.Uses.{uses};
ghost use Rattle.sve_used.specs.Used.{name_used};

use crate::dotted::{dotted_use, selected_use};
use std::alloc::Global;
use std::mem;
use sve_bytes::NoMemory;
use sve_contents::Contents;
use sve_scoped::Text;
use sve_tree::{Expr, Postfix, ScopedName, Select};
use sve_use::{Resolver, names_in};

/// A scope in which names are used.
#[derive(Drop)]
pub(crate) struct Using<'a> {
    pub(crate) alloc: Global,
    pub(crate) text: Text<'a>,
    pub(crate) contents: Contents,
}

/// What is held of a scope, taken out of its place. What is left there is a scope with nothing in it.
///
/// # Errors
/// For want of memory alone.
pub fn taken_out(alloc: Global, contents: &mut Contents) -> Result<Contents, NoMemory>
    ensures { IfOk result (λ c. c ≡ contents.old) }
{
    let file = contents.scope.file.copy()?;
    let chunk = contents.scope.chunk;
    Ok(mem::replace(contents, Contents::new(alloc, file, chunk)))
}

impl Resolver for Using<'_> {
    ghost use Rattle.sve_used.specs.Using.{used_after};

    ghost after = { used_after };

    fn named(&mut self, name: ScopedName) -> Result<(), NoMemory> {
        let contents = taken_out(self.alloc, &mut self.contents)?;
        self.contents = contents.named_use(self.text.packages, self.text.words, name)?;
        Ok(())
    }

    fn called(&mut self, name: ScopedName) -> Result<(), NoMemory> {
        let contents = taken_out(self.alloc, &mut self.contents)?;
        self.contents = contents.named_use(self.text.packages, self.text.words, name)?;
        Ok(())
    }

    fn dotted(&mut self, name: u32, postfixes: &[Postfix]) -> Result<(), NoMemory> {
        let contents = taken_out(self.alloc, &mut self.contents)?;
        self.contents = dotted_use(self.alloc, self.text, contents, name, postfixes)?;
        Ok(())
    }

    fn selected(&mut self, name: u32, selects: &[Select]) -> Result<(), NoMemory> {
        let contents = taken_out(self.alloc, &mut self.contents)?;
        self.contents = selected_use(self.alloc, self.text, contents, name, selects)?;
        Ok(())
    }
}

/// The scope behind the names that an expression uses, in the order of the text (IEEE 1800-2017, clause 11). Each is resolved, and what
/// is wrong with it is said: it stands for nothing (N01, with members behind it N10), its package is not known (N04) or does not declare
/// it (N05), or it is of two packages (N06; 23.6, 23.9 and 26.3).
///
/// # Errors
/// For want of memory alone.
#[tactic(auto, using(crate::proofs::Folds::used_all))]
pub fn names_used(
    alloc: Global,
    text: Text<'_>,
    contents: Contents,
    expr: &Expr,
) -> Result<Contents, NoMemory>
    ensures { IfOk result (λ c. c ≡ fold (name_used text.entry.packages.now text.entry.words.now) contents (uses expr.now)) }
{
    let mut using = Using {
        alloc,
        text,
        contents,
    };
    names_in(expr, &mut using)?;
    let Using {
        alloc: _,
        text: _,
        contents,
    } = using;
    Ok(contents)
}
