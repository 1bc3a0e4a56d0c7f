ghost use Rattle.std.specs.Prelude.{◌≡◌};
ghost use Rattle.sve_bytes.specs.TreeOrder.{tree_cmp};
ghost use Rattle.sve_spec.specs.Trees.{bits_tree, bool_tree, face_tree, given_tree, int_tree, name_tree, option_tree, value_tree};

use crate::row_order::{InOrder, row_order};
use crate::type_order::type_order;
use crate::{FaceGiven, Given};
use std::cmp::Ordering;
use sve_bytes::Name;
use sve_types::{Range, Value};
use sve_value::Bits;

impl InOrder for u8 {
    ghost use base.Stored.{gnum};

    ghost tree = { gnum };

    fn order(&self, other: &u8) -> Ordering {
        self.cmp(other)
    }
}

impl InOrder for Range {
    ghost use Rattle.sve_spec.specs.Trees.{range_tree};

    ghost tree = { range_tree };

    fn order(&self, other: &Range) -> Ordering {
        int_order(self.left, other.left).then(int_order(self.right, other.right))
    }
}

impl InOrder for (Name, Bits) {
    ghost use Rattle.sve_spec.specs.Trees.{named_bits_tree};

    ghost tree = { named_bits_tree };

    fn order(&self, other: &(Name, Bits)) -> Ordering {
        name_order(&self.0, &other.0).then(bits_order(self.1, other.1))
    }
}

impl InOrder for Given {
    ghost use Rattle.sve_spec.specs.Trees.{given_tree};

    ghost tree = { given_tree };

    fn order(&self, other: &Given) -> Ordering {
        given_order(self, other)
    }
}

impl InOrder for FaceGiven {
    ghost use Rattle.sve_spec.specs.Trees.{face_tree};

    ghost tree = { face_tree };

    fn order(&self, other: &FaceGiven) -> Ordering {
        face_order(self, other)
    }
}

/// How a truth value stands to another.
#[tactic(auto, using(crate::proofs::TreeOrders::bool_is))]
pub(crate) fn bool_order(value: bool, other: bool) -> Ordering
    ensures { result ≡ tree_cmp (bool_tree value) (bool_tree other) }
{
    value.cmp(&other)
}

/// How a number stands to another: those below zero are first, from the greatest to the least.
#[tactic(auto, using(crate::proofs::TreeOrders::int_is))]
fn int_order(number: i32, other: i32) -> Ordering
    ensures { result ≡ tree_cmp (int_tree number) (int_tree other) }
{
    if number < 0 {
        if other < 0 {
            other.cmp(&number)
        } else {
            Ordering::Less
        }
    } else if other < 0 {
        Ordering::Greater
    } else {
        number.cmp(&other)
    }
}

/// How a name stands to another.
#[tactic(auto, using(crate::proofs::TreeOrders::name_is))]
pub(crate) fn name_order(name: &Name, other: &Name) -> Ordering
    ensures { result ≡ tree_cmp (name_tree name.now) (name_tree other.now) }
{
    name.cmp(other)
}

/// How a name that may be missing stands to another.
fn option_order(name: &Option<Name>, other: &Option<Name>) -> Ordering
    ensures { result ≡ tree_cmp (option_tree name_tree name.now) (option_tree name_tree other.now) }
{
    match name {
        None => match other {
            None => Ordering::Equal,
            Some(_) => Ordering::Less,
        },
        Some(name) => match other {
            None => Ordering::Greater,
            Some(other) => name_order(name, other),
        },
    }
}

/// How a value of bits stands to another.
fn bits_order(bits: Bits, other: Bits) -> Ordering
    ensures { result ≡ tree_cmp (bits_tree bits) (bits_tree other) }
{
    let words = bits
        .ones
        .cmp(&other.ones)
        .then(bits.unknowns.cmp(&other.unknowns));
    bool_order(bits.signed, other.signed).then(bits.width.cmp(&other.width).then(words))
}

/// How the value of a parameter stands to another.
fn value_order(value: &Value, other: &Value) -> Ordering
    ensures { result ≡ tree_cmp (value_tree value.now) (value_tree other.now) }
{
    match value {
        Value::Bits(bits) => match other {
            Value::Bits(other) => bits_order(*bits, *other),
            Value::Text(_) => Ordering::Less,
            Value::OfType(_) => Ordering::Less,
        },
        Value::Text(text) => match other {
            Value::Bits(_) => Ordering::Greater,
            Value::Text(other) => row_order(text.items(), other.items()),
            Value::OfType(_) => Ordering::Less,
        },
        Value::OfType(ty) => match other {
            Value::Bits(_) => Ordering::Greater,
            Value::Text(_) => Ordering::Greater,
            Value::OfType(other) => type_order(ty, other),
        },
    }
}

/// How what a parameter is given stands to another.
fn given_order(given: &Given, other: &Given) -> Ordering
    ensures { result ≡ tree_cmp (given_tree given.now) (given_tree other.now) }
{
    match given {
        Given::Default => match other {
            Given::Default => Ordering::Equal,
            Given::Value(_) => Ordering::Less,
            Given::Bad => Ordering::Less,
        },
        Given::Value(value) => match other {
            Given::Default => Ordering::Greater,
            Given::Value(other) => value_order(value, other),
            Given::Bad => Ordering::Less,
        },
        Given::Bad => match other {
            Given::Default => Ordering::Greater,
            Given::Value(_) => Ordering::Greater,
            Given::Bad => Ordering::Equal,
        },
    }
}

/// How what an interface port is given stands to another.
fn face_order(face: &FaceGiven, other: &FaceGiven) -> Ordering
    ensures { result ≡ tree_cmp (face_tree face.now) (face_tree other.now) }
{
    let given = name_order(&face.interface, &other.interface).then(option_order(
        &face.modport,
        &other.modport,
    ));
    name_order(&face.port, &other.port).then(given)
}
