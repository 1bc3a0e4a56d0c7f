ghost use Rattle.std.specs.Prelude.{◌≡◌, ◌++◌, IfOk, OnOk};
ghost use Rattle.std.specs.Fmt.{signed_decimal};
ghost use Rattle.sve_bytes.specs.PathText.{name_text};
ghost use Rattle.sve_types.specs.View.{form_of, members_of};
ghost use Rattle.sve_types.specs.TypeText.{atom_word, vec_word, atom_is_signed, sign_text, range_text, dimensions_text, unpacked_text, named_value_text, names_text, opening_text, text_of, form_text, members_text};

use crate::ty::{Atom, Base, Range, Ty, Vec_};
use itoa::Buffer;
use std::alloc::Global;
use sve_bytes::{List, Name, NoMemory, Path, Step};
use sve_value::Bits;

fn atom_word(atom: Atom) -> &'static [u8]
    ensures { result.now ≡ atom_word atom }
{
    match atom {
        Atom::Byte => b"byte",
        Atom::ShortInt => b"shortint",
        Atom::Int => b"int",
        Atom::LongInt => b"longint",
        Atom::Integer => b"integer",
        Atom::Time => b"time",
    }
}

fn vec_word(vec: Vec_) -> &'static [u8]
    ensures { result.now ≡ vec_word vec }
{
    match vec {
        Vec_::Bit => b"bit",
        Vec_::Logic => b"logic",
        Vec_::Reg => b"reg",
    }
}

fn atom_is_signed(atom: Atom) -> bool
    ensures { result ≡ atom_is_signed atom }
{
    !matches!(atom, Atom::Time)
}

fn append_sign(text: &mut Vec<u8>, unless_said: bool, signed: bool) -> Result<(), NoMemory>
    ensures { OnOk result (text.new.items ≡ text.old.items ++ sign_text unless_said signed) }
{
    match (unless_said, signed) {
        (false, true) => text.extend_from_slice(b" signed"),
        (true, false) => text.extend_from_slice(b" unsigned"),
        _ => Ok(()),
    }
}

fn append_number(text: &mut Vec<u8>, number: i32) -> Result<(), NoMemory>
    ensures { OnOk result (text.new.items ≡ text.old.items ++ signed_decimal number) }
{
    let mut buffer = Buffer::new();
    text.extend_from_slice(buffer.format(number).as_bytes())
}

fn append_dimension(text: &mut Vec<u8>, range: Range) -> Result<(), NoMemory>
    ensures { OnOk result (text.new.items ≡ text.old.items ++ range_text range) }
{
    text.extend_from_slice(b" [")?;
    append_number(text, range.left)?;
    text.extend_from_slice(b":")?;
    append_number(text, range.right)?;
    text.extend_from_slice(b"]")
}

fn append_dimensions(text: &mut Vec<u8>, dimensions: &[Range]) -> Result<(), NoMemory>
    ensures { OnOk result (text.new.items ≡ text.old.items ++ dimensions_text dimensions.now) }
{
    'dimensions: for range in dimensions {
        append_dimension(text, *range)?;
    }
    Ok(())
}

fn append_unpacked(text: &mut Vec<u8>, dimensions: &[Range]) -> Result<(), NoMemory>
    ensures { OnOk result (text.new.items ≡ text.old.items ++ unpacked_text dimensions.now) }
{
    if dimensions.is_empty() {
        return Ok(());
    }
    text.extend_from_slice(b" @")?;
    append_dimensions(text, dimensions)
}

/// A name as a path of one step is spelled.
fn append_name(alloc: Global, text: &mut Vec<u8>, name: &Name) -> Result<(), NoMemory>
    ensures { OnOk result (text.new.items ≡ text.old.items ++ name_text name.now) }
{
    let mut steps = Vec::new(alloc);
    steps.push(Step {
        name: name.copy()?,
        index: None,
    })?;
    let path = Path {
        steps: List::of(steps),
    };
    text.extend_from_slice(&path.print(alloc)?)
}

fn append_named_value(
    alloc: Global,
    text: &mut Vec<u8>,
    named: &(Name, Bits),
) -> Result<(), NoMemory>
    ensures { OnOk result (text.new.items ≡ text.old.items ++ named_value_text named.now) }
{
    append_name(alloc, text, &named.0)?;
    text.extend_from_slice(b"=")?;
    text.extend_from_slice(&sve_value::print(alloc, named.1)?)
}

fn append_names(alloc: Global, text: &mut Vec<u8>, names: &[(Name, Bits)]) -> Result<(), NoMemory>
    ensures { OnOk result (text.new.items ≡ text.old.items ++ names_text names.now) }
{
    let Some((first, others)) = names.split_first() else {
        return Ok(());
    };
    append_named_value(alloc, text, first)?;
    'names: for named in others {
        text.extend_from_slice(b",")?;
        append_named_value(alloc, text, named)?;
    }
    Ok(())
}

/// What stands before the members of a structure.
fn opening(signed: bool) -> &'static [u8]
    ensures { result.now ≡ opening_text signed }
{
    if signed {
        b"struct packed signed{"
    } else {
        b"struct packed{"
    }
}

#[cycle(printing)]
#[tactic(auto, using(crate::proofs::Rows::size_of_member), unfolding(crate::specs::TypeText::text_of))]
fn append_type(alloc: Global, text: &mut Vec<u8>, t: &Ty) -> Result<(), NoMemory>
    ensures { OnOk result (text.new.items ≡ text.old.items ++ text_of t.now) }
{
    append_base(alloc, text, &t.base)?;
    append_dimensions(text, t.packed.items())?;
    append_unpacked(text, t.unpacked.items())
}

#[cycle(printing)]
#[tactic(auto, using(crate::proofs::Rows::size_of_member), unfolding(crate::specs::TypeText::text_of))]
fn append_base(alloc: Global, text: &mut Vec<u8>, base: &Base) -> Result<(), NoMemory>
    ensures { OnOk result (text.new.items ≡ text.old.items ++ form_text (form_of base.now)) }
{
    match base {
        Base::Atom(atom, signed) => {
            text.extend_from_slice(atom_word(*atom))?;
            append_sign(text, atom_is_signed(*atom), *signed)
        }
        Base::Vector(vec, signed) => {
            text.extend_from_slice(vec_word(*vec))?;
            append_sign(text, false, *signed)
        }
        Base::Enum { of, names, .. } => {
            text.extend_from_slice(b"enum ")?;
            append_type(alloc, text, of)?;
            text.extend_from_slice(b"{")?;
            append_names(alloc, text, names.items())?;
            text.extend_from_slice(b"}")
        }
        Base::Struct { signed, members } => {
            text.extend_from_slice(opening(*signed))?;
            append_members(alloc, text, members.as_slice())?;
            text.extend_from_slice(b"}")
        }
        Base::Text => text.extend_from_slice(b"string"),
    }
}

#[cycle(printing)]
#[tactic(auto, using(crate::proofs::Rows::size_of_member), unfolding(crate::specs::TypeText::text_of))]
fn append_members(alloc: Global, text: &mut Vec<u8>, members: &[(Name, Ty)]) -> Result<(), NoMemory>
    ensures { OnOk result (text.new.items ≡ text.old.items ++ members_text (members_of members.now)) }
{
    'members: for (name, member) in members {
        append_type(alloc, text, member)?;
        text.extend_from_slice(b" ")?;
        append_name(alloc, text, name)?;
        text.extend_from_slice(b";")?;
    }
    Ok(())
}

/// The text of a type: its keyword; its sign, where it is not the one that the keyword has alone; each packed dimension as
/// ` [left:right]`; and, where there are unpacked ones, ` @` and each of these likewise. An enumeration is
/// `enum <base>{<name>=<value>,..}` and a packed structure `struct packed{<type> <name>;..}`, each list in full, with ` signed`
/// behind `packed` where the structure is signed. A name that is no simple identifier is a backslash, the name and one space
/// (own).
pub fn print(alloc: Global, t: &Ty) -> Result<Vec<u8>, NoMemory>
    ensures { IfOk result (λ text. text.items ≡ text_of t.now) }
{
    let mut text = Vec::new(alloc);
    append_type(alloc, &mut text, t)?;
    Ok(text)
}
