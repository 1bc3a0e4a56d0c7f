ghost use Rattle.std.specs.Prelude.{◌≡◌, ◌++◌, OnOk, map};
ghost use Rattle.std.specs.List.{flat_map};
ghost use Rattle.sve_heading.specs.Types.{declared_type_headings, enum_name_heading, members_headings, structure_headings, type_headings, type_ref_headings};

use crate::heading::Heading;
use sve_bytes::NoMemory;
use sve_tree::{DataType, DeclaredType, EnumName, Members, Structure, TypeRef};

/// Adds the names of an enumeration.
fn in_enum_names(names: &[EnumName], found: &mut Vec<Heading>) -> Result<(), NoMemory>
    ensures { OnOk result (found.new.items ≡ found.old.items ++ map enum_name_heading names.now) }
{
    for name in names {
        found.push(Heading {
            token: name.name,
            is_function: false,
        })?;
    }
    Ok(())
}

/// Adds the names that a type by its keyword or by its name declares where it is written: those of enumerations, also within
/// structures (IEEE 1800-2017, 6.19 and 7.2.1).
///
/// # Errors
/// For want of memory alone.
#[cycle(types)]
#[tactic(auto, using(crate::proofs::WrittenTypes::of_written, crate::proofs::WrittenTypes::of_named, std::proofs::lemmas::Grind::common_steps))]
pub fn in_type_ref(type_ref: &TypeRef, found: &mut Vec<Heading>) -> Result<(), NoMemory>
    ensures { OnOk result (found.new.items ≡ found.old.items ++ type_ref_headings type_ref.now) }
{
    match type_ref {
        TypeRef::Written { data_type } => in_data_type(data_type, found),
        TypeRef::Named { .. } => Ok(()),
    }
}

/// Adds the names that a type declares.
#[cycle(types)]
#[tactic(auto, using(crate::proofs::WrittenTypes::of_atom, crate::proofs::WrittenTypes::of_vector, crate::proofs::WrittenTypes::of_text, crate::proofs::WrittenTypes::of_enum, crate::proofs::WrittenTypes::of_struct, std::proofs::lemmas::Grind::common_steps))]
fn in_data_type(data_type: &DataType, found: &mut Vec<Heading>) -> Result<(), NoMemory>
    ensures { OnOk result (found.new.items ≡ found.old.items ++ type_headings data_type.now) }
{
    match data_type {
        DataType::Atom { .. } | DataType::Vector { .. } | DataType::Text { .. } => Ok(()),
        DataType::Enum { enumeration } => in_enum_names(enumeration.names.as_slice(), found),
        DataType::Struct { structure } => in_structure(structure, found),
    }
}

/// Adds the names that the types of a structure's members declare.
#[cycle(types)]
#[tactic(auto, using(crate::proofs::WrittenTypes::of_structure, std::proofs::lemmas::Grind::common_steps))]
fn in_structure(structure: &Structure, found: &mut Vec<Heading>) -> Result<(), NoMemory>
    ensures { OnOk result (found.new.items ≡ found.old.items ++ structure_headings structure.now) }
{
    in_members(&structure.members, found)
}

/// Adds the names that the types of members declare.
#[cycle(types)]
fn in_members(members: &[Members], found: &mut Vec<Heading>) -> Result<(), NoMemory>
    ensures { OnOk result (found.new.items ≡ found.old.items ++ flat_map members_headings members.now) }
{
    for member in members {
        in_type_ref(&member.data_type, found)?;
    }
    Ok(())
}

/// Adds the names that the type of a declaration declares, where it has one.
///
/// # Errors
/// For want of memory alone.
pub fn in_declared_type(data_type: &DeclaredType, found: &mut Vec<Heading>) -> Result<(), NoMemory>
    ensures { OnOk result (found.new.items ≡ found.old.items ++ declared_type_headings data_type.now) }
{
    match data_type {
        DeclaredType::Explicit { data_type } => in_type_ref(data_type, found),
        DeclaredType::Implicit { .. } => Ok(()),
    }
}
