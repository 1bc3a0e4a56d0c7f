ghost use Rattle.std.specs.Prelude.{◌≡◌, ◌≤◌, [], ◌∷◌, ◌++◌, false, IfOk, is_some, length};
ghost use Rattle.std.specs.List.{list_any};
ghost use Rattle.sve_table.specs.Tables.{item_of};
ghost use Rattle.sve_value.specs.Vector.{IsWidth, Vector};
ghost use Rattle.sve_operand.specs.Pending.{meaning_of};
ghost use Rattle.sve_rule.specs.Judged.{judged};
ghost use Rattle.sve_type_rule.specs.Same.{digits_of};
ghost use Rattle.sve_type_rule.specs.declared.values.Last.TheVariants as is_last;
ghost use Rattle.sve_type_rule.specs.Names.{named, no_names, first_value, next_of, next_by, next_value, automatic, is_kept, is_held, cut_value, assigned_value, explicit, is_taken, without_value, entered_value, entered, automatic_after, explicit_after};

use crate::same::{digits, same};
use crate::values::{Last, Names};
use std::alloc::Global;
use sve_bytes::{Name, NoMemory};
use sve_diag::Code;
use sve_fault::{Fault, argument};
use sve_operand::Operand;
use sve_rule::{Judged, Target};
use sve_table::Table;
use sve_value::{Binary, Bits, binary, truth};

/// No name. It takes no memory.
#[tactic(auto, unfolding(crate::specs::Same::digits_of_names))]
pub fn no_names(alloc: Global, faults: Vec<Fault>) -> Names
    ensures { named result ≡ no_names faults.items }
{
    Names {
        names: Vec::new(alloc),
        last: Last::First,
        faults,
        values: Table::new(alloc),
    }
}

/// The value of a name: none, of which nothing is said, where the one before has none.
type Valued = Result<Option<Bits>, Fault>;

/// The value of the first name, where none is written.
fn first_value(base: Target, token: u32) -> Valued
    ensures { result ≡ first_value base token }
{
    if base.width == 0 {
        return Err(Fault::at(token, Code::C01));
    }
    if base.width > 128 {
        return Err(Fault::at(token, Code::C03));
    }
    Ok(Some(Bits::number(base.width as u32, base.signed, 0)))
}

/// One more than a value, of its size and sign.
#[tactic(auto, using(crate::proofs::Alike::one_is_alike))]
fn next_of(value: Bits) -> Bits
    ensures { result ≡ next_of value }
{
    let one = Bits::number(value.width(), value.is_signed(), 1);
    binary(Binary::Add, value, one)
}

/// The next value, by whether it is less than the last one.
fn next_by(
    alloc: Global,
    token: u32,
    name: &[u8],
    next: Bits,
    is_less: Option<bool>,
) -> Result<Valued, NoMemory>
    ensures { IfOk result (λ r. r ≡ next_by token name.now next is_less) }
{
    match is_less {
        Some(true) => Ok(Err(Fault::about(alloc, token, Code::C10, name)?)),
        Some(false) => Ok(Ok(Some(next))),
        None => Ok(Err(Fault::about(alloc, token, Code::C09, name)?)),
    }
}

/// The value of a name behind one that has a value.
#[tactic(auto, using(crate::proofs::Alike::next_is_alike))]
fn next_value(alloc: Global, token: u32, name: &[u8], value: Bits) -> Result<Valued, NoMemory>
    ensures { IfOk result (λ r. r ≡ next_value token name.now value) }
{
    let next = next_of(value);
    let is_less = truth(binary(Binary::Less, next, value));
    next_by(alloc, token, name, next, is_less)
}

/// The value of a name without one of its own.
fn automatic_value(
    alloc: Global,
    base: Target,
    token: u32,
    name: &[u8],
    last: &Last,
) -> Result<Valued, NoMemory>
    ensures { IfOk result (λ r. r ≡ automatic base token name.now last.now) }
{
    match last {
        Last::First => Ok(first_value(base, token)),
        Last::Value(value) => next_value(alloc, token, name, *value),
        Last::Missing => Ok(Ok(None)),
    }
}

/// Whether the bits that are cut off are those with which the base would extend what is left.
fn is_kept(base: Target, size: u32, whole: Bits, cut: Bits) -> bool
    requires { IsWidth size }
    ensures { result ≡ is_kept base size whole cut }
{
    same(
        cut.extend(size, base.signed),
        whole.extend(size, base.signed),
    )
}

/// Whether the base can hold x and z where a value has some.
fn is_held(base: Target, cut: Bits) -> bool
    ensures { result ≡ is_held base cut }
{
    if base.two_state {
        cut.natural().is_some()
    } else {
        true
    }
}

/// A value as the base holds it.
fn cut_value(
    alloc: Global,
    base: Target,
    token: u32,
    name: &[u8],
    size: u32,
    whole: Bits,
    cut: Bits,
) -> Result<Valued, NoMemory>
    requires { IsWidth size }
    ensures { IfOk result (λ r. r ≡ cut_value base token name.now size whole cut) }
{
    if !is_kept(base, size, whole, cut) {
        return Ok(Err(Fault::about(alloc, token, Code::C10, name)?));
    }
    if !is_held(base, cut) {
        return Ok(Err(Fault::about(alloc, token, Code::C10, name)?));
    }
    Ok(Ok(Some(cut)))
}

/// A value that is written, as it is assigned to the base.
fn assigned_value(
    alloc: Global,
    base: Target,
    token: u32,
    name: &[u8],
    value_token: u32,
    a: Operand,
) -> Result<Valued, NoMemory>
    ensures { IfOk result (λ r. r ≡ assigned_value base token name.now value_token (meaning_of a)) }
{
    if base.width == 0 {
        return Ok(Err(Fault::at(value_token, Code::C01)));
    }
    if base.width > 128 {
        return Ok(Err(Fault::at(value_token, Code::C03)));
    }
    let width = base.width as u32;
    let size = a.width().max(width);
    let whole = a.value(size, a.is_signed());
    let cut = whole.extend(width, base.signed);
    cut_value(alloc, base, token, name, size, whole, cut)
}

/// The value of a name with one of its own.
fn explicit_value(
    alloc: Global,
    base: Target,
    token: u32,
    name: &[u8],
    value_token: u32,
    value: Judged,
) -> Result<Valued, NoMemory>
    ensures { IfOk result (λ r. r ≡ explicit base token name.now value_token (judged value)) }
{
    match value {
        Ok(value) => assigned_value(alloc, base, token, name, value_token, value),
        Err(fault) => Ok(Err(fault)),
    }
}

/// Whether digits are among those of values.
fn is_among(values: &Table<Name>, digits: &Name) -> bool
    ensures { result ≡ is_some (item_of (λ n. n) digits.now values.now) }
{
    match values.get(digits) {
        Some(_) => true,
        None => false,
    }
}

/// Whether one of the names has the value of these digits.
fn is_taken(names: &Names, value: Bits, digits: &Name) -> bool
    requires { digits.now ≡ digits_of value.bits }
    ensures { result ≡ is_taken names.now.names.items value }
{
    is_among(&names.values, digits)
}

/// The names, the last of them with a value or without one.
fn with_last(before: Names, last: Last) -> Names
    ensures { named result ≡ record { names = before.names.items; last = last; faults = before.faults.items } }
{
    let Names {
        names,
        last: _,
        faults,
        values,
    } = before;
    Names {
        names,
        last,
        faults,
        values,
    }
}

/// The names, and behind them one more with a value that none of them has.
#[tactic(auto, using(crate::proofs::Taken::digits_behind, crate::proofs::Taken::added_is))]
fn with_name(before: Names, name: Name, value: Bits, digits: Name) -> Result<Names, NoMemory>
    requires digits { digits ≡ digits_of value.bits }
    requires is_new { is_taken before.names.items value ≡ false }
    ensures { IfOk result (λ n. named n ≡ record { names = before.names.items ++ (name, value) ∷ []; last = is_last.Value value; faults = before.faults.items }) }
{
    let Names {
        mut names,
        last: _,
        faults,
        mut values,
    } = before;
    values.add(digits)?;
    names.push((name, value))?;
    Ok(Names {
        names,
        last: Last::Value(value),
        faults,
        values,
    })
}

/// A name with which something is wrong.
fn without_value(before: Names, fault: Fault) -> Result<Names, NoMemory>
    ensures { IfOk result (λ n. named n ≡ without_value (named before) fault) }
{
    let Names {
        names,
        last: _,
        mut faults,
        values,
    } = before;
    faults.push(fault)?;
    Ok(Names {
        names,
        last: Last::Missing,
        faults,
        values,
    })
}

/// A name with a value, which no name before it has.
fn entered_value(
    alloc: Global,
    before: Names,
    token: u32,
    name: &[u8],
    value: Bits,
) -> Result<Names, NoMemory>
    ensures { IfOk result (λ n. named n ≡ entered_value (named before) token name.now value) }
{
    let digits = digits(alloc, value)?;
    if is_taken(&before, value, &digits) {
        return without_value(before, Fault::about(alloc, token, Code::C08, name)?);
    }
    match argument(alloc, name)? {
        None => Ok(with_last(before, Last::Value(value))),
        Some(name) => with_name(before, name, value, digits),
    }
}

/// A name more, by its value.
fn entered(
    alloc: Global,
    before: Names,
    token: u32,
    name: &[u8],
    value: Valued,
) -> Result<Names, NoMemory>
    ensures { IfOk result (λ n. named n ≡ entered (named before) token name.now value) }
{
    match value {
        Ok(value) => match value {
            Some(value) => entered_value(alloc, before, token, name, value),
            None => Ok(with_last(before, Last::Missing)),
        },
        Err(fault) => without_value(before, fault),
    }
}

/// A name without a value of its own, at its token: the first is 0, and each other one more than the one before (IEEE 1800-2017, 6.19).
/// One behind a value with x or z is a fault (C09), as is one behind the greatest value of the base (C10), and one whose value a name
/// before it has (C08). It fails for want of memory alone.
#[tactic(auto, unfolding(crate::specs::Names::automatic_after))]
pub fn automatic(
    alloc: Global,
    base: Target,
    token: u32,
    name: &[u8],
    before: Names,
) -> Result<Names, NoMemory>
    ensures { IfOk result (λ n. named n ≡ automatic_after base token name.now (named before)) }
{
    let value = automatic_value(alloc, base, token, name, &before.last)?;
    entered(alloc, before, token, name, value)
}

/// A name with a value, at its token, by what the value means, which begins at a token of its own. It is evaluated as an assignment does
/// (10.7), and is a fault where the base changes it (C10), or a name before it has it (C08). It fails for want of memory alone.
#[tactic(auto, unfolding(crate::specs::Names::explicit_after))]
pub fn explicit(
    alloc: Global,
    base: Target,
    token: u32,
    name: &[u8],
    value_token: u32,
    value: Judged,
    before: Names,
) -> Result<Names, NoMemory>
    ensures { IfOk result (λ n. named n ≡ explicit_after base token name.now value_token (judged value) (named before)) }
{
    let value = explicit_value(alloc, base, token, name, value_token, value)?;
    entered(alloc, before, token, name, value)
}
