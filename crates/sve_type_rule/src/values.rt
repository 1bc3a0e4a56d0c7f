ghost use Rattle.std.specs.Prelude.{◌≡◌};
ghost use Rattle.sve_type_rule.specs.Same.{digits_of_names};

use sve_bytes::Name;
use sve_fault::Fault;
use sve_table::Table;
use sve_value::Bits;

/// The value of the last name of an enumeration (IEEE 1800-2017, 6.19).
#[derive(Clone, Copy)]
pub enum Last {
    /// There is no name yet.
    First,
    /// It has this value.
    Value(Bits),
    /// It has none, since something is wrong with it, or with one before it.
    Missing,
}

/// The names of an enumeration, as far as they have values.
#[derive(Drop)]
pub struct Names {
    /// The names that have a value, each with it.
    pub names: Vec<(Name, Bits)>,
    /// The value of the last name.
    pub last: Last,
    /// All that is wrong so far, in the order of the text.
    pub faults: Vec<Fault>,
    /// The digits of the values, in the same order.
    pub(crate) values: Table<Name>,
    ghost values_are: { values ≡ digits_of_names names.items },
}
