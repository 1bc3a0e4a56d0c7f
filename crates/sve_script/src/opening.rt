//! Reading the files before the first commit.
ghost use Rattle.std.specs.Prelude.{◌≡◌, IfOk, false, codes};
ghost use Rattle.std.specs.Ordering.{nat_cmp};
ghost use Rattle.std.specs.Cmp.Lexicographic.{slice_cmp};
ghost use Rattle.std.specs.BTreeSet.{contains};
ghost use Rattle.serde_json.specs.View.{view, items_view, members_view};
ghost use Rattle.sve_shape.specs.Shapes.{member_as};
ghost use Rattle.sve_script.specs.Session.{new_name_of, file_of, files_as, files_of};

use serde_json::Value;
use std::alloc::Global;
use std::collections::BTreeSet;
use sve_bytes::{List, Name};
use sve_command::{shaped, text_of};
use sve_shape::{
    Object, Taken, below_index, below_member, fault_at, fault_here, has_two, items_under,
    text_under,
};
use sve_text::{Text, file_name};

/// The name of a file, which is none of these.
fn new_name(alloc: Global, used: &BTreeSet<Name>, members: &Object) -> Taken<Name>
    ensures { IfOk result (λ shaped. shaped ≡ member_as (new_name_of (contains (slice_cmp nat_cmp) used.now)) (codes "name") (members_view members.now.entries)) }
{
    let Some(text) = text_under(members, "name") else {
        return fault_at(alloc, "name");
    };
    match file_name(alloc, text.as_bytes())? {
        Some(name) if !used.contains(&name) => Ok(Ok(name)),
        _ => fault_at(alloc, "name"),
    }
}

/// One file, whose name is none of these.
fn file(alloc: Global, used: &BTreeSet<Name>, value: &Value) -> Taken<(Name, Text)>
    ensures { IfOk result (λ shaped. shaped ≡ file_of (contains (slice_cmp nat_cmp) used.now) (view value.now)) }
{
    let Some(members) = value.as_object() else {
        return fault_here(alloc);
    };
    if !has_two(members, "name", "text") {
        return fault_here(alloc);
    }
    let name = shaped!(new_name(alloc, used, members)?);
    let text = shaped!(text_of(alloc, members)?);
    Ok(Ok((name, text)))
}

/// Files, in their order. The names are kept in a set, so that each is looked up in few steps.
fn files_in(alloc: Global, items: &[Value]) -> Taken<List<(Name, Text)>>
    ensures { IfOk result (λ shaped. shaped ≡ files_as (λ name. false) 0 (items_view items.now)) }
{
    let mut used = BTreeSet::new(alloc);
    let mut files = Vec::new(alloc);
    for (i, item) in items.iter().enumerate() {
        match file(alloc, &used, item)? {
            Ok(file) => {
                used.insert(file.0.copy()?)?;
                files.push(file)?;
            }
            Err(path) => return Ok(Err(below_index(alloc, i, path)?)),
        }
    }
    Ok(Ok(List::of(files)))
}

/// The files under the key `files`.
pub fn files(alloc: Global, members: &Object) -> Taken<List<(Name, Text)>>
    ensures { IfOk result (λ shaped. shaped ≡ member_as files_of (codes "files") (members_view members.now.entries)) }
{
    let Some(items) = items_under(members, "files") else {
        return fault_at(alloc, "files");
    };
    match files_in(alloc, items)? {
        Ok(files) => Ok(Ok(files)),
        Err(path) => Ok(Err(below_member(alloc, "files", path)?)),
    }
}
