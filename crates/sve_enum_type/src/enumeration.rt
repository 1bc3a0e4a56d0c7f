ghost use Rattle.std.specs.Prelude.{◌≡◌, IfOk};
ghost use Rattle.sve_fault.specs.Counts.{IsFuel, Counts};
ghost use Rattle.sve_env.specs.Nodes.{dimension_count};
ghost use Rattle.sve_type_rule.specs.Ranges.{dimensioned};
ghost use Rattle.sve_type_rule.specs.Outcomes.{outcome};
ghost use Rattle.sve_type_rule.specs.Names.{named};
ghost use Rattle.sve_enum_type.specs.Enumerations.{can_be_base, enumerated, base_over, base_of, target_of, listing, name_value, name_after, names_behind, no_name, names_over, enumeration_typed};
ghost use Rattle.sve_enum_type.specs.Nodes.{base_nodes, value_nodes, name_count, enumeration_nodes};

use crate::earlier::{Among, Earlier, with_new};
use std::alloc::Global;
use std::sync::Arc;
use sve_bytes::{List, Name, NoMemory};
use sve_diag::Code;
use sve_env::Env;
use sve_fault::{Fault, Fuel, Halted};
use sve_form::token_of;
use sve_rule::Target;
use sve_simple_type::{atom_typed, named_typed, operand, ranges, vector_typed};
use sve_table::Table;
use sve_tree::{EnumBase, EnumName, Enumeration};
use sve_type_rule::{Names, Ranges, Typed, atom, automatic, explicit, no_names, no_ranges};
use sve_types::{Atom, Base, Ty, four_state, signed, width};
use sve_value::Bits;

/// Whether a type can be the base of an enumeration.
fn can_be_base(ty: &Ty) -> bool
    ensures { result ≡ can_be_base ty.now }
{
    if !ty.unpacked.items().is_empty() {
        return false;
    }
    match &ty.base {
        Base::Atom(..) => true,
        Base::Vector(..) => true,
        Base::Enum { .. } => false,
        Base::Struct { .. } => false,
        Base::Text => false,
    }
}

/// A base by its name, which is `int` where another type stands there.
fn base_over(alloc: Global, token: u32, name: &[u8], typed: Typed) -> Result<Typed, NoMemory>
    ensures { IfOk result (λ t. outcome t ≡ base_over token name.now (outcome typed)) }
{
    if can_be_base(&typed.ty) {
        return Ok(typed);
    }
    let Typed { ty: _, mut faults } = typed;
    faults.push(Fault::about(alloc, token, Code::N11, name)?)?;
    Ok(atom(alloc, Atom::Int, true, faults))
}

/// The base of an enumeration.
fn base_of<E: Env>(
    alloc: Global,
    base: &Option<EnumBase>,
    faults: Vec<Fault>,
    env: &E,
    fuel: &mut Fuel,
) -> Result<Typed, Halted>
    requires { IsFuel fuel.old }
    ensures meaning { IfOk result (λ t. outcome t ≡ base_of (E.told env.now) base.now faults.items) }
    ensures count { Counts result fuel.old fuel.new (base_nodes (E.told env.now) base.now) }
{
    match base {
        None => Ok(atom(alloc, Atom::Int, true, faults)),
        Some(EnumBase::Atom { atom }) => Ok(atom_typed(alloc, *atom, faults)),
        Some(EnumBase::Vector { vector }) => vector_typed(alloc, vector, faults, env, fuel),
        Some(EnumBase::Named { named }) => {
            let typed = named_typed(alloc, named, faults, env, fuel)?;
            let token = named.name.name;
            Ok(base_over(alloc, token, env.text(token), typed)?)
        }
    }
}

/// What an assignment to the base has to know.
fn target_of(ty: &Ty) -> Target
    ensures { result ≡ target_of ty.now }
{
    Target {
        width: width(ty),
        signed: signed(ty),
        two_state: !four_state(ty),
    }
}

/// The names of an enumeration, as far as they were read.
#[derive(Drop)]
pub(crate) struct Listed {
    /// Those that have a value.
    pub(crate) names: Names,
    /// All of them, for the values behind them.
    pub(crate) earlier: Table<Earlier>,
}

/// The names with one more, whose value is evaluated where the names before it are known.
#[tactic(auto, using(crate::proofs::Counted::nodes_among))]
fn name_value<E: Env>(
    alloc: Global,
    base: &Ty,
    target: Target,
    before: Names,
    earlier: &Table<Earlier>,
    name: &EnumName,
    env: &E,
    fuel: &mut Fuel,
) -> Result<Names, Halted>
    requires fuel { IsFuel fuel.old }
    requires target { target ≡ target_of base.now }
    ensures meaning { IfOk result (λ n. named n ≡ name_value (E.told env.now) base.now name.now.name name.now.value (record { named = named before; earlier = earlier.now })) }
    ensures count { Counts result fuel.old fuel.new (value_nodes (E.told env.now) name.now.value) }
{
    let token = name.name;
    let text = env.text(token);
    match &name.value {
        None => Ok(automatic(alloc, target, token, text, before)?),
        Some(initializer) => {
            let among = Among {
                alloc,
                env,
                base,
                earlier,
            };
            let value = operand(alloc, &initializer.value, &among, fuel)?;
            let value_token = token_of(&initializer.value);
            Ok(explicit(alloc, target, token, text, value_token, value, before)?)
        }
    }
}

/// A name more.
#[tactic(auto, unfolding(crate::specs::Enumerations::name_after))]
fn name_after<E: Env>(
    alloc: Global,
    base: &Ty,
    target: Target,
    before: Listed,
    name: &EnumName,
    env: &E,
    fuel: &mut Fuel,
) -> Result<Listed, Halted>
    requires fuel { IsFuel fuel.old }
    requires target { target ≡ target_of base.now }
    ensures meaning { IfOk result (λ n. listing n ≡ name_after (E.told env.now) base.now (listing before) name.now) }
    ensures count { Counts result fuel.old fuel.new (value_nodes (E.told env.now) name.now.value) }
{
    let Listed { names, earlier } = before;
    let names = name_value(alloc, base, target, names, &earlier, name, env, fuel)?;
    let is_declared = env.declared_before(name.name)?;
    let earlier = with_new(
        alloc,
        earlier,
        is_declared,
        env.text(name.name),
        &names.last,
    )?;
    Ok(Listed { names, earlier })
}

/// Names behind others, in order (IEEE 1800-2017, 6.19).
#[tactic(auto, using(crate::proofs::Rows::names_step, crate::proofs::Rows::names_end, crate::proofs::Rows::name_count_step, crate::proofs::Rows::name_count_end))]
fn names<E: Env>(
    alloc: Global,
    base: &Ty,
    target: Target,
    before: Listed,
    written: &[EnumName],
    env: &E,
    fuel: &mut Fuel,
) -> Result<Listed, Halted>
    requires fuel { IsFuel fuel.old }
    requires target { target ≡ target_of base.now }
    ensures meaning { IfOk result (λ n. listing n ≡ names_behind (E.told env.now) base.now (listing before) written.now) }
    ensures count { Counts result fuel.old fuel.new (name_count (E.told env.now) written.now) }
{
    let mut before = before;
    'names: for next in written {
        before = name_after(alloc, base, target, before, next, env, fuel)?;
    }
    Ok(before)
}

/// An enumeration by its base, its names with their values, and its dimensions.
fn enumerated(
    alloc: Global,
    file: &Name,
    chunk: u32,
    keyword: u32,
    of: Ty,
    names: Vec<(Name, Bits)>,
    ranges: Ranges,
) -> Result<Typed, NoMemory>
    ensures { IfOk result (λ t. outcome t ≡ enumerated file.now chunk keyword of names.items (dimensioned ranges)) }
{
    let Ranges {
        ranges,
        places: _,
        faults,
    } = ranges;
    Ok(Typed {
        ty: Ty {
            base: Base::Enum {
                id: (file.copy()?, chunk, keyword),
                of: Box::new(alloc, of)?,
                names: Arc::new(alloc, List::of(names))?,
            },
            packed: List::of(ranges),
            unpacked: List::of(Vec::new(alloc)),
        },
        faults,
    })
}

/// The names of an enumeration of this base, with what is wrong so far.
fn names_of<E: Env>(
    alloc: Global,
    base: &Ty,
    faults: Vec<Fault>,
    written: &[EnumName],
    env: &E,
    fuel: &mut Fuel,
) -> Result<Names, Halted>
    requires { IsFuel fuel.old }
    ensures meaning { IfOk result (λ n. named n ≡ (names_behind (E.told env.now) base.now (no_name faults.items) written.now).named) }
    ensures count { Counts result fuel.old fuel.new (name_count (E.told env.now) written.now) }
{
    let before = Listed {
        names: no_names(alloc, faults),
        earlier: Table::new(alloc),
    };
    let target = target_of(base);
    let Listed { names, earlier: _ } = names(alloc, base, target, before, written, env, fuel)?;
    Ok(names)
}

/// An enumeration of this base with these names.
fn names_over<E: Env>(
    alloc: Global,
    written: &Enumeration,
    base: Ty,
    names: Names,
    env: &E,
    fuel: &mut Fuel,
) -> Result<Typed, Halted>
    requires { IsFuel fuel.old }
    ensures meaning { IfOk result (λ t. outcome t ≡ names_over (E.told env.now) written.now.keyword written.now.dimensions.items base (named names)) }
    ensures count { Counts result fuel.old fuel.new (dimension_count (E.told env.now) written.now.dimensions.items) }
{
    let Names { names, faults, .. } = names;
    let before = no_ranges(alloc, 1, faults);
    let ranges = ranges(alloc, before, &written.dimensions, env, fuel)?;
    Ok(enumerated(
        alloc,
        env.file(),
        env.chunk(),
        written.keyword,
        base,
        names,
        ranges,
    )?)
}

/// An enumeration (6.19): its base, its names with their values, and its dimensions, with what is wrong behind what is wrong so far. It
/// counts the nodes of the dimensions and of the values, and is Over exactly where they pass the most.
#[tactic(auto, unfolding(crate::specs::Enumerations::enumeration_typed))]
pub fn enumeration_typed<E: Env>(
    alloc: Global,
    written: &Enumeration,
    faults: Vec<Fault>,
    env: &E,
    fuel: &mut Fuel,
) -> Result<Typed, Halted>
    requires { IsFuel fuel.old }
    ensures meaning { IfOk result (λ t. outcome t ≡ enumeration_typed (E.told env.now) written.now faults.items) }
    ensures count { Counts result fuel.old fuel.new (enumeration_nodes (E.told env.now) written.now) }
{
    let Typed { ty, faults } = base_of(alloc, &written.base, faults, env, fuel)?;
    let names = names_of(alloc, &ty, faults, &written.names.items, env, fuel)?;
    names_over(alloc, written, ty, names, env, fuel)
}
