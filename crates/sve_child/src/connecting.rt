//! The names in the connections of an instance whose ports are known.
ghost use Rattle.std.specs.Prelude.{◌≡◌, IfOk};
ghost use Rattle.std.specs.List.{fold};
ghost use Rattle.sve_child.specs.Connecting.{argument_used, declared_use, is_undeclared, lone, names_connected, names_in_value, value_used};

use crate::arguments::argument_value;
use crate::nets::{net_tokens, stands_for_something};
use crate::saying::all_said;
use std::alloc::Global;
use sve_around::{Instances, member_behind, reference_of};
use sve_bytes::NoMemory;
use sve_contents::Contents;
use sve_diag::Code;
use sve_facts::Port;
use sve_scoped::Text;
use sve_tree::{Arg, Expr, Instance, Postfix, ScopedName, Select, Word};
use sve_use::{Resolver, names_in};
use sve_used::{dotted_use, selected_use, taken_out};

/// A scope in which the names in connections are used.
#[derive(Drop)]
pub(crate) struct Connecting<'a> {
    alloc: Global,
    text: Text<'a>,
    contents: Contents,
}

/// Whether a name is one of no package that stands for nothing.
fn is_undeclared(words: &[Word], contents: &Contents, name: ScopedName) -> bool
    ensures { result ≡ is_undeclared words.now contents.now name }
{
    name.scope.is_none() && !stands_for_something(words, contents, name.name)
}

/// The scope behind the use of a name, of which nothing is said where it stands for nothing.
fn declared_use(text: Text<'_>, contents: Contents, name: ScopedName) -> Result<Contents, NoMemory>
    ensures { IfOk result (λ c. c ≡ declared_use text.entry.packages.now text.entry.words.now contents name) }
{
    if is_undeclared(text.words, &contents, name) {
        return Ok(contents);
    }
    contents.named_use(text.packages, text.words, name)
}

impl Resolver for Connecting<'_> {
    ghost use Rattle.sve_child.specs.Naming.{connected_after};

    ghost after = { connected_after };

    fn named(&mut self, name: ScopedName) -> Result<(), NoMemory> {
        let contents = taken_out(self.alloc, &mut self.contents)?;
        self.contents = declared_use(self.text, contents, name)?;
        Ok(())
    }

    fn called(&mut self, name: ScopedName) -> Result<(), NoMemory> {
        let contents = taken_out(self.alloc, &mut self.contents)?;
        self.contents = contents.named_use(self.text.packages, self.text.words, name)?;
        Ok(())
    }

    fn dotted(&mut self, name: u32, postfixes: &[Postfix]) -> Result<(), NoMemory> {
        let contents = taken_out(self.alloc, &mut self.contents)?;
        self.contents = dotted_use(self.alloc, self.text, contents, name, postfixes)?;
        Ok(())
    }

    fn selected(&mut self, name: u32, selects: &[Select]) -> Result<(), NoMemory> {
        let contents = taken_out(self.alloc, &mut self.contents)?;
        self.contents = selected_use(self.alloc, self.text, contents, name, selects)?;
        Ok(())
    }
}

/// The scope behind the names in an expression, of which nothing is said where they stand for nothing.
#[tactic(auto, using(crate::proofs::Folds::all_connected))]
pub(crate) fn names_in_value(
    alloc: Global,
    text: Text<'_>,
    contents: Contents,
    value: &Expr,
) -> Result<Contents, NoMemory>
    ensures { IfOk result (λ c. c ≡ names_in_value text.entry.packages.now text.entry.words.now contents value.now) }
{
    let mut connecting = Connecting {
        alloc,
        text,
        contents,
    };
    names_in(value, &mut connecting)?;
    let Connecting {
        alloc: _,
        text: _,
        contents,
    } = connecting;
    Ok(contents)
}

/// The token of the name, where an expression is a plain name with one member and nothing else.
pub(crate) fn lone(value: &Expr) -> Option<u32>
    ensures { result ≡ lone value.now }
{
    match member_behind(value) {
        Some(_) => reference_of(value),
        None => None,
    }
}

/// The scope behind the names in an expression that is connected. Of a name with one member and nothing else, which may be an interface with
/// a modport, nothing is said here.
fn value_used(
    alloc: Global,
    text: Text<'_>,
    contents: Contents,
    value: &Expr,
) -> Result<Contents, NoMemory>
    ensures { IfOk result (λ c. c ≡ value_used text.entry.packages.now text.entry.words.now contents value.now) }
{
    match lone(value) {
        Some(token) => contents.with_use(text.words, token),
        None => names_in_value(alloc, text, contents, value),
    }
}

/// The scope behind the names in an argument.
fn argument_used(
    alloc: Global,
    text: Text<'_>,
    contents: Contents,
    argument: &Arg,
) -> Result<Contents, NoMemory>
    ensures { IfOk result (λ c. c ≡ argument_used text.entry.packages.now text.entry.words.now contents argument.now) }
{
    match argument_value(argument) {
        Some(value) => value_used(alloc, text, contents, value),
        None => Ok(contents),
    }
}

/// The scope behind the names in arguments, one after another.
fn arguments_used(
    alloc: Global,
    text: Text<'_>,
    contents: Contents,
    arguments: &[Arg],
) -> Result<Contents, NoMemory>
    ensures { IfOk result (λ c. c ≡ fold (argument_used text.entry.packages.now text.entry.words.now) contents arguments.now) }
{
    let mut contents = contents;
    'arguments: for argument in arguments {
        contents = argument_used(alloc, text, contents, argument)?;
    }
    Ok(contents)
}

/// The scope behind the names that the connections of an instance use, in the order of the text, where its specialization has these
/// ports. Those are said that would make nets and stand for nothing (N01; IEEE 1800-2017, 6.10 and 23.9).
///
/// # Errors
/// For want of memory alone.
pub(crate) fn names_connected<I: Instances>(
    alloc: Global,
    text: Text<'_>,
    contents: Contents,
    instances: &I,
    ports: &[Port],
    instance: &Instance,
) -> Result<Contents, NoMemory>
    ensures { IfOk result (λ c. c ≡ names_connected text.entry.packages.now text.entry.words.now (I.interfaces instances.now) contents ports.now instance.now) }
{
    let tokens = net_tokens(alloc, text, &contents, instances, ports, instance)?;
    let arguments = instance.connections.arguments.as_slice();
    let contents = arguments_used(alloc, text, contents, arguments)?;
    all_said(text.words, contents, Code::N01, tokens.as_slice())
}
