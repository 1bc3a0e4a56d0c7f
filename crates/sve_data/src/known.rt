//! Types of data where the text of a scope was read so far, whose nodes are not bounded.
ghost use Rattle.std.specs.Prelude.{◌≡◌, IfOk};
ghost use Rattle.sve_scoped.specs.Assignments.{is_text};
ghost use Rattle.sve_type_of.specs.TypeOf.{IsTyped};
ghost use Rattle.sve_type_rule.specs.Outcomes.{scalar};
ghost use Rattle.sve_scoped.specs.Known.{told_in};
ghost use Rattle.sve_data.specs.Declarations.{type_selected};

use std::alloc::Global;
use sve_bytes::{List, NoMemory};
use sve_contents::Contents;
use sve_scoped::{Text, around, ended, endless};
use sve_tree::{ScopedName, Select};
use sve_type_of::{Typed, selected_type};
use sve_types::{Base, Ty, Vec_};

/// The type of a name with selects behind it, which are its packed dimensions (IEEE 1800-2017, 6.18 and 7.4.1), where the text of a scope
/// was read so far, and what there is to say of it.
///
/// # Errors
/// For want of memory alone.
pub fn selected_in(
    alloc: Global,
    text: Text<'_>,
    contents: &Contents,
    name: ScopedName,
    selects: &[Select],
) -> Result<Typed, NoMemory>
    ensures { IfOk result (λ t. IsTyped t (told_in text.entry.packages.now text.entry.words.now contents.now) (type_selected (told_in text.entry.packages.now text.entry.words.now contents.now) name selects.now)) }
{
    let env = around(alloc, text, contents);
    ended(selected_type(alloc, name, selects, &env, &mut endless()))
}

/// One bit of four states, as which what has no type counts.
pub fn scalar(alloc: Global) -> Ty
    ensures { result ≡ scalar }
{
    Ty {
        base: Base::Vector(Vec_::Logic, false),
        packed: List::of(Vec::new(alloc)),
        unpacked: List::of(Vec::new(alloc)),
    }
}

/// Whether a type is a string.
pub(crate) fn is_text(ty: &Ty) -> bool
    ensures { result ≡ is_text ty.now }
{
    matches!(ty.base, Base::Text)
}
