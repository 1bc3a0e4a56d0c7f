//! Reading the edits of a commit.
ghost use Rattle.std.specs.Prelude.{◌≡◌, IfOk, codes};
ghost use Rattle.serde_json.specs.View.{view, items_view, members_view};
ghost use Rattle.sve_shape.specs.Shapes.{member_as, string_of, items_as};
ghost use Rattle.sve_command.specs.Edits.{file_name_of, put_from, drop_from, splice_from, edit_of};

use crate::shaped;
use serde_json::Value;
use std::alloc::Global;
use sve_bytes::{List, Name};
use sve_shape::{
    Object, Taken, below_index, fault_at, fault_here, has_five, has_only, has_two, text_under,
    whole_under,
};
use sve_text::{Edit, Text, file_name};

/// The greatest revision that an edit may name, 2^63 - 1.
const MAX_BASE: u64 = 9_223_372_036_854_775_807;

/// The greatest offset and length that an edit may name, in bytes.
const MAX_OFFSET: u64 = 4_294_967_295;

/// The name of a file under the key.
fn name_under(alloc: Global, members: &Object, key: &str) -> Taken<Name>
    ensures { IfOk result (λ shaped. shaped ≡ member_as file_name_of key.now (members_view members.now.entries)) }
{
    let Some(text) = text_under(members, key) else {
        return fault_at(alloc, key);
    };
    match file_name(alloc, text.as_bytes())? {
        Some(name) => Ok(Ok(name)),
        None => fault_at(alloc, key),
    }
}

/// The text under the key `text`. It is copied once, from the string, and shared from then on.
pub fn text_of(alloc: Global, members: &Object) -> Taken<Text>
    ensures { IfOk result (λ shaped. shaped ≡ member_as string_of (codes "text") (members_view members.now.entries)) }
{
    let Some(text) = text_under(members, "text") else {
        return fault_at(alloc, "text");
    };
    let bytes = List::of(Vec::from_slice(alloc, text.as_bytes())?);
    Ok(Ok(Text::of(alloc, bytes)?))
}

/// A file is put.
fn put(alloc: Global, members: &Object) -> Taken<Edit>
    ensures { IfOk result (λ shaped. shaped ≡ put_from (members_view members.now.entries)) }
{
    let name = shaped!(name_under(alloc, members, "put")?);
    let text = shaped!(text_of(alloc, members)?);
    Ok(Ok(Edit::Put { name, text }))
}

/// A file is dropped.
fn drop_of(alloc: Global, members: &Object) -> Taken<Edit>
    ensures { IfOk result (λ shaped. shaped ≡ drop_from (members_view members.now.entries)) }
{
    let name = shaped!(name_under(alloc, members, "drop")?);
    Ok(Ok(Edit::Drop { name }))
}

/// A part of a file is replaced.
fn splice(alloc: Global, members: &Object) -> Taken<Edit>
    ensures { IfOk result (λ shaped. shaped ≡ splice_from (members_view members.now.entries)) }
{
    let name = shaped!(name_under(alloc, members, "splice")?);
    let base = shaped!(whole_under(alloc, members, "base", MAX_BASE)?);
    let at = shaped!(whole_under(alloc, members, "at", MAX_OFFSET)?) as u32;
    let cut = shaped!(whole_under(alloc, members, "cut", MAX_OFFSET)?) as u32;
    let text = shaped!(text_of(alloc, members)?);
    Ok(Ok(Edit::Splice {
        name,
        base,
        at,
        cut,
        text,
    }))
}

/// One edit of a commit.
fn edit(alloc: Global, value: &Value) -> Taken<Edit>
    ensures { IfOk result (λ shaped. shaped ≡ edit_of (view value.now)) }
{
    let Some(members) = value.as_object() else {
        return fault_here(alloc);
    };
    if has_two(members, "put", "text") {
        put(alloc, members)
    } else if has_only(members, "drop") {
        drop_of(alloc, members)
    } else if has_five(members, "splice", "base", "at", "cut", "text") {
        splice(alloc, members)
    } else {
        fault_here(alloc)
    }
}

/// Edits, in their order.
pub fn edits(alloc: Global, items: &[Value]) -> Taken<List<Edit>>
    ensures { IfOk result (λ shaped. shaped ≡ items_as edit_of 0 (items_view items.now)) }
{
    let mut edits = Vec::new(alloc);
    for (i, item) in items.iter().enumerate() {
        match edit(alloc, item)? {
            Ok(edit) => edits.push(edit)?,
            Err(path) => return Ok(Err(below_index(alloc, i, path)?)),
        }
    }
    Ok(Ok(List::of(edits)))
}
