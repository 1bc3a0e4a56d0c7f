//! What stands under the keys of a JSON object.
ghost use Rattle.std.specs.Prelude.{◌≡◌, ◌∷◌, [], is_some, option_map};
ghost use Rattle.serde_json.specs.Find.{as_str, as_array, get_member};
ghost use Rattle.serde_json.specs.View.{view, items_view, members_view};
ghost use Rattle.sve_shape.specs.Shapes.{count_members, has_exactly, find_as};

use serde_json::{Map, Value};

/// The members of a JSON object, each key once.
pub type Object = Map<String, Value>;

/// The value under the key.
pub fn value_under<'o>(object: &'o Object, key: &str) -> Option<&'o Value>
    ensures { option_map (λ v. view v.now) result ≡ get_member key.now (members_view object.now.entries) }
{
    object.get(key)
}

/// The string under the key, where a string stands there.
pub fn text_under<'o>(object: &'o Object, key: &str) -> Option<&'o str>
    ensures { option_map (λ t. t.now) result ≡ find_as as_str key.now (members_view object.now.entries) }
{
    match value_under(object, key) {
        Some(value) => value.as_str(),
        None => None,
    }
}

/// The items of the array under the key, where an array stands there.
pub fn items_under<'o>(object: &'o Object, key: &str) -> Option<&'o Vec<Value>>
    ensures { option_map (λ v. items_view v.now.items) result ≡ find_as as_array key.now (members_view object.now.entries) }
{
    match value_under(object, key) {
        Some(value) => value.as_array(),
        None => None,
    }
}

/// How many members the object has.
pub fn member_count(object: &Object) -> usize
    ensures { result ≡ count_members (members_view object.now.entries) }
{
    object.len()
}

/// Whether the object has this key.
pub fn has(object: &Object, key: &str) -> bool
    ensures { result ≡ is_some (get_member key.now (members_view object.now.entries)) }
{
    value_under(object, key).is_some()
}

/// Whether the object has this key and no other.
pub fn has_only(object: &Object, key: &str) -> bool
    ensures { result ≡ has_exactly (key.now ∷ []) (members_view object.now.entries) }
{
    member_count(object) == 1 && has(object, key)
}

/// Whether the object has these two keys, which differ, and no other.
pub fn has_two(object: &Object, first: &str, second: &str) -> bool
    ensures { result ≡ has_exactly (first.now ∷ second.now ∷ []) (members_view object.now.entries) }
{
    member_count(object) == 2 && has(object, first) && has(object, second)
}

/// Whether the object has these five keys, which differ, and no other.
pub fn has_five(
    object: &Object,
    first: &str,
    second: &str,
    third: &str,
    fourth: &str,
    fifth: &str,
) -> bool
    ensures { result ≡ has_exactly (first.now ∷ second.now ∷ third.now ∷ fourth.now ∷ fifth.now ∷ []) (members_view object.now.entries) }
{
    member_count(object) == 5
        && has(object, first)
        && has(object, second)
        && has(object, third)
        && has(object, fourth)
        && has(object, fifth)
}
