//! Strings and whole numbers under the keys of a JSON object.
ghost use Rattle.std.specs.Prelude.{◌≡◌, ◌≤◌, IfOk, option_and_then};
ghost use Rattle.serde_json.specs.Find.{as_number, as_u64, get_member};
ghost use Rattle.serde_json.specs.View.{members_view};
ghost use Rattle.sve_shape.specs.Shapes.{find_as, member_as, string_of, whole_of, whole_to};

use crate::member::{Object, text_under, value_under};
use crate::place::{Taken, fault_at};
use std::alloc::Global;
use sve_bytes::List;

/// The bytes of the string under the key.
pub fn string_under(alloc: Global, object: &Object, key: &str) -> Taken<List<u8>>
    ensures { IfOk result (λ shaped. shaped ≡ member_as string_of key.now (members_view object.now.entries)) }
{
    match text_under(object, key) {
        Some(text) => Ok(Ok(List::of(Vec::from_slice(alloc, text.as_bytes())?))),
        None => fault_at(alloc, key),
    }
}

/// The whole number under the key, up to 2^64 - 1. One that is written with a fraction or an exponent is none, and -0 is
/// none.
fn number_under(object: &Object, key: &str) -> Option<u64>
    ensures { result ≡ find_as whole_of key.now (members_view object.now.entries) }
{
    match value_under(object, key) {
        Some(value) => value.as_u64(),
        None => None,
    }
}

/// The whole number from 0 to `most` under the key.
pub fn whole_under(alloc: Global, object: &Object, key: &str, most: u64) -> Taken<u64>
    ensures shaped { IfOk result (λ shaped. shaped ≡ member_as (whole_to most) key.now (members_view object.now.entries)) }
    ensures within { IfOk result (λ shaped. IfOk shaped (λ number. number ≤ most)) }
{
    match number_under(object, key) {
        Some(number) if number <= most => Ok(Ok(number)),
        _ => fault_at(alloc, key),
    }
}
