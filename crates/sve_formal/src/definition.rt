ghost use Rattle.std.specs.Prelude.{◌≡◌, ◌++◌, IfOk, OnOk};
ghost use Rattle.sve_tree.specs.declared.word.ParameterKeyword.TheVariants.{Parameter};
ghost use Rattle.sve_formal.specs.Formals.{formals_of, list_formals, overridable_count};

use crate::Formal;
use crate::header::in_header;
use crate::items::in_items;
use std::alloc::Global;
use sve_bytes::NoMemory;
use sve_tree::{Definition, ParameterPorts};

/// Adds the parameters of the list of a header, where it has one.
fn in_list(list: &Option<ParameterPorts>, found: &mut Vec<Formal>) -> Result<(), NoMemory>
    ensures { OnOk result (found.new.items ≡ found.old.items ++ list_formals list.now) }
{
    match list {
        Some(list) => in_header(list.parameters.as_slice(), found),
        None => Ok(()),
    }
}

/// The parameters of a module or an interface in the order of its text, each time that one is declared: those of its header and
/// those of its body (IEEE 1800-2017, 6.20 and 23.10). Where the header has a list of parameters, also one without any, those of
/// the body are local. It goes over the header and the items of the body once.
///
/// # Errors
/// For want of memory alone.
pub fn formals(alloc: Global, definition: &Definition) -> Result<Vec<Formal>, NoMemory>
    ensures { IfOk result (λ found. found.items ≡ formals_of definition.now) }
{
    let mut found = Vec::new(alloc);
    in_list(&definition.header.parameters, &mut found)?;
    let has_list = definition.header.parameters.is_some();
    in_items(has_list, &definition.items, &mut found)?;
    Ok(found)
}

/// How many of these parameters an instance may override: as many values a specialization has. It takes no memory.
pub fn overridable_count(formals: &[Formal]) -> usize
    ensures { result ≡ overridable_count formals.now }
{
    formals.iter().filter(|formal| !formal.is_local).count()
}
