ghost use Rattle.std.specs.Prelude.{◌≡◌, [], IfOk, set};
ghost use Rattle.std.specs.List.{fold};
ghost use Rattle.sve_nested.specs.Blocks.{closed, ended, emptied, is_block, is_kept, kept, with_kept};

use crate::block::Block;
use std::alloc::Global;
use std::mem;
use sve_bytes::{List, Name, NoMemory};
use sve_contents::Contents;
use sve_facts::BodyScope;
use sve_scope::{Declared, Scope, What};
use sve_table::Table;

/// A scope that was taken out of what was read, and the rest.
#[derive(Drop)]
pub(crate) struct Taken {
    pub(crate) contents: Contents,
    pub(crate) scope: Scope,
}

/// Whether a name stands for a generate block.
fn is_block(what: &What) -> bool
    ensures { result ≡ is_block what.now }
{
    matches!(what, What::Block)
}

/// Whether a declaration is one of the scope at its end: a block that was not entered is none.
fn is_kept(entered: &Table<Name>, declared: &Declared) -> bool
    ensures { result ≡ is_kept entered.now declared.now }
{
    if is_block(&declared.what) {
        return entered.get(&declared.name).is_some();
    }
    true
}

/// The declarations so far, and one more, if it stays.
fn with_kept(
    alloc: Global,
    all: Table<Declared>,
    entered: &Table<Name>,
    declared: &Declared,
) -> Result<Table<Declared>, NoMemory>
    ensures { IfOk result (λ t. t ≡ with_kept entered.now all declared.now) }
{
    if !is_kept(entered, declared) {
        return Ok(all);
    }
    let mut all = all;
    all.add(declared.copy(alloc)?)?;
    Ok(all)
}

/// The declarations of a scope without the blocks that were not entered.
#[tactic(auto, using(crate::proofs::Keeping::next_kept, crate::proofs::Keeping::all_kept))]
fn those_kept(
    alloc: Global,
    entered: &Table<Name>,
    all: &Table<Declared>,
) -> Result<Table<Declared>, NoMemory>
    ensures { IfOk result (λ t. t ≡ fold (with_kept entered.now) [] all.now) }
{
    let mut kept = Table::new(alloc);
    'places: for place in 0..all.len() {
        kept = with_kept(alloc, kept, entered, all.at(place))?;
    }
    Ok(kept)
}

/// The declarations of a scope at its end.
fn kept(alloc: Global, block: &Block, all: Table<Declared>) -> Result<Table<Declared>, NoMemory>
    ensures { IfOk result (λ t. t ≡ kept block.now all) }
{
    if block.labels.len() == block.entered.len() {
        return Ok(all);
    }
    those_kept(alloc, &block.entered, &all)
}

/// A scope at its end.
fn ended(alloc: Global, block: &Block, scope: Scope) -> Result<Scope, NoMemory>
    ensures { IfOk result (λ s. s ≡ ended block.now scope) }
{
    let mut scope = scope;
    let all = mem::replace(&mut scope.declared, Table::new(alloc));
    scope.declared = kept(alloc, block, all)?;
    scope.ahead = Table::new(alloc);
    Ok(scope)
}

/// The scopes of a body, where one stands at its place.
#[tactic(auto, using(std::proofs::lemmas::List::set_past))]
fn put(scopes: Vec<BodyScope>, place: usize, scope: BodyScope) -> Vec<BodyScope>
    ensures { result.items ≡ set scopes.items place scope }
{
    if place >= scopes.len() {
        return scopes;
    }
    let mut scopes = scopes;
    scopes[place] = scope;
    scopes
}

/// The scopes of a body, where one stands at its place that has ended.
pub(crate) fn closed(
    alloc: Global,
    block: Block,
    scope: Scope,
    scopes: List<BodyScope>,
) -> Result<List<BodyScope>, NoMemory>
    ensures { IfOk result (λ l. l ≡ closed block scope scopes) }
{
    let scope = ended(alloc, &block, scope)?;
    let path = block.path.copy(alloc)?;
    let scopes = put(scopes.into_vec(), block.place, BodyScope { path, scope });
    Ok(List::of(scopes))
}

/// The innermost scope is taken out, and an empty one stands there.
pub(crate) fn take_scope(alloc: Global, contents: Contents) -> Result<Taken, NoMemory>
    ensures { IfOk result (λ t. t ≡ record { contents = emptied contents; scope = contents.scope }) }
{
    let mut contents = contents;
    let file = contents.scope.file.copy()?;
    let empty = Scope::new(alloc, file, contents.scope.chunk);
    let scope = mem::replace(&mut contents.scope, empty);
    Ok(Taken { contents, scope })
}
