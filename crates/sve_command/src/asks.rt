//! Reading an ask.
ghost use Rattle.std.specs.Prelude.{◌≡◌, IfOk};
ghost use Rattle.serde_json.specs.View.{members_view};
ghost use Rattle.sve_command.specs.declared.commands.QueryKind.{QueryKind};
ghost use Rattle.sve_command.specs.Asks.{kind_named, operands, has_operands, times_there, query_from, mode_from, budget_from, ask_of_kind, ask_from};

use crate::commands::{Query, QueryKind};
use crate::drafts::Draft;
use crate::shaped;
use std::alloc::Global;
use sve_shape::{
    Object, Taken, fault_at, fault_here, has, member_count, string_under, text_under, value_under,
};
use sve_text::Mode;

/// What a word asks for, if it is that of an ask.
fn kind_of(word: &str) -> Option<QueryKind>
    ensures { result ≡ kind_named word.now }
{
    match word {
        "file" => Some(QueryKind::File),
        "expand" => Some(QueryKind::Expand),
        "tops" => Some(QueryKind::Tops),
        "instance" => Some(QueryKind::Instance),
        "tree" => Some(QueryKind::Tree),
        "type" => Some(QueryKind::TypeOf),
        "param" => Some(QueryKind::Param),
        "resolve" => Some(QueryKind::Resolve),
        "diagnostics" => Some(QueryKind::Diagnostics),
        _ => None,
    }
}

/// 1 where the key is there, else 0.
fn times(members: &Object, key: &str) -> usize
    ensures { result ≡ times_there key.now (members_view members.now.entries) }
{
    if has(members, key) { 1 } else { 0 }
}

/// Whether the members of an ask of this kind are there, and no others.
fn has_members(kind: QueryKind, members: &Object) -> bool
    ensures { result ≡ has_operands (operands kind) (members_view members.now.entries) }
{
    let operands = member_count(members);
    let others = 1 + times(members, "mode") + times(members, "budget");
    match kind {
        QueryKind::Tops | QueryKind::Tree | QueryKind::Diagnostics => operands == others,
        QueryKind::File | QueryKind::Expand => operands == others + 1 && has(members, "name"),
        QueryKind::Instance => operands == others + 1 && has(members, "path"),
        QueryKind::TypeOf | QueryKind::Param | QueryKind::Resolve => {
            operands == others + 2 && has(members, "path") && has(members, "name")
        }
    }
}

/// `{"ask": "file", "name": name}`
fn file_query(alloc: Global, members: &Object) -> Taken<Query>
    ensures { IfOk result (λ shaped. shaped ≡ query_from QueryKind.File (members_view members.now.entries)) }
{
    let name = shaped!(string_under(alloc, members, "name")?);
    Ok(Ok(Query::File { name }))
}

/// `{"ask": "expand", "name": name}`
fn expand_query(alloc: Global, members: &Object) -> Taken<Query>
    ensures { IfOk result (λ shaped. shaped ≡ query_from QueryKind.Expand (members_view members.now.entries)) }
{
    let name = shaped!(string_under(alloc, members, "name")?);
    Ok(Ok(Query::Expand { name }))
}

/// `{"ask": "instance", "path": path}`
fn instance_query(alloc: Global, members: &Object) -> Taken<Query>
    ensures { IfOk result (λ shaped. shaped ≡ query_from QueryKind.Instance (members_view members.now.entries)) }
{
    let path = shaped!(string_under(alloc, members, "path")?);
    Ok(Ok(Query::Instance { path }))
}

/// `{"ask": "type", "path": path, "name": name}`
fn type_query(alloc: Global, members: &Object) -> Taken<Query>
    ensures { IfOk result (λ shaped. shaped ≡ query_from QueryKind.TypeOf (members_view members.now.entries)) }
{
    let path = shaped!(string_under(alloc, members, "path")?);
    let name = shaped!(string_under(alloc, members, "name")?);
    Ok(Ok(Query::TypeOf { path, name }))
}

/// `{"ask": "param", "path": path, "name": name}`
fn param_query(alloc: Global, members: &Object) -> Taken<Query>
    ensures { IfOk result (λ shaped. shaped ≡ query_from QueryKind.Param (members_view members.now.entries)) }
{
    let path = shaped!(string_under(alloc, members, "path")?);
    let name = shaped!(string_under(alloc, members, "name")?);
    Ok(Ok(Query::Param { path, name }))
}

/// `{"ask": "resolve", "path": path, "name": name}`
fn resolve_query(alloc: Global, members: &Object) -> Taken<Query>
    ensures { IfOk result (λ shaped. shaped ≡ query_from QueryKind.Resolve (members_view members.now.entries)) }
{
    let path = shaped!(string_under(alloc, members, "path")?);
    let name = shaped!(string_under(alloc, members, "name")?);
    Ok(Ok(Query::Resolve { path, name }))
}

/// The query of this kind.
fn query(alloc: Global, kind: QueryKind, members: &Object) -> Taken<Query>
    ensures { IfOk result (λ shaped. shaped ≡ query_from kind (members_view members.now.entries)) }
{
    match kind {
        QueryKind::File => file_query(alloc, members),
        QueryKind::Expand => expand_query(alloc, members),
        QueryKind::Tops => Ok(Ok(Query::Tops)),
        QueryKind::Instance => instance_query(alloc, members),
        QueryKind::Tree => Ok(Ok(Query::Tree)),
        QueryKind::TypeOf => type_query(alloc, members),
        QueryKind::Param => param_query(alloc, members),
        QueryKind::Resolve => resolve_query(alloc, members),
        QueryKind::Diagnostics => Ok(Ok(Query::Diagnostics)),
    }
}

/// What the ask wants where a newer revision comes; where nothing is said, it may be cancelled.
fn mode(alloc: Global, members: &Object) -> Taken<Mode>
    ensures { IfOk result (λ shaped. shaped ≡ mode_from (members_view members.now.entries)) }
{
    let Some(value) = value_under(members, "mode") else {
        return Ok(Ok(Mode::Latest));
    };
    match value.as_str() {
        Some("latest") => Ok(Ok(Mode::Latest)),
        Some("pinned") => Ok(Ok(Mode::Pinned)),
        _ => fault_at(alloc, "mode"),
    }
}

/// The budget of the ask, if it has one.
fn budget(alloc: Global, members: &Object) -> Taken<Option<u64>>
    ensures { IfOk result (λ shaped. shaped ≡ budget_from (members_view members.now.entries)) }
{
    let Some(value) = value_under(members, "budget") else {
        return Ok(Ok(None));
    };
    match value.as_u64() {
        Some(number) => Ok(Ok(Some(number))),
        None => fault_at(alloc, "budget"),
    }
}

/// The ask of this kind with these members.
fn ask_of_kind(alloc: Global, kind: QueryKind, members: &Object) -> Taken<Draft>
    ensures { IfOk result (λ shaped. shaped ≡ ask_of_kind (members_view members.now.entries) kind) }
{
    if !has_members(kind, members) {
        return fault_here(alloc);
    }
    let query = shaped!(query(alloc, kind, members)?);
    let mode = shaped!(mode(alloc, members)?);
    let budget = shaped!(budget(alloc, members)?);
    Ok(Ok(Draft::ask(query, mode, budget)))
}

/// The command `{"ask": word, ..}`.
pub fn ask(alloc: Global, members: &Object) -> Taken<Draft>
    ensures { IfOk result (λ shaped. shaped ≡ ask_from (members_view members.now.entries)) }
{
    let Some(word) = text_under(members, "ask") else {
        return fault_at(alloc, "ask");
    };
    match kind_of(word) {
        Some(kind) => ask_of_kind(alloc, kind, members),
        None => fault_at(alloc, "ask"),
    }
}
