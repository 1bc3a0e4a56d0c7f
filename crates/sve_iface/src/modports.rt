//! The modports of an interface.
ghost use Rattle.std.specs.Prelude.{◌≡◌, [], IfOk};
ghost use Rattle.std.specs.List.{fold};
ghost use Rattle.sve_iface.specs.Names.{members_of, modports_of, with_item_modports, with_member, with_modport};

use std::alloc::Global;
use sve_bytes::{Name, NoMemory};
use sve_known::name_at;
use sve_scope::ModportNames;
use sve_table::Table;
use sve_tree::{Item, Modport, ModportMember, Word};

/// Names, and the one of a member more.
fn with_member(
    words: &[Word],
    names: Table<Name>,
    member: &ModportMember,
) -> Result<Table<Name>, NoMemory>
    ensures { IfOk result (λ all. all ≡ with_member words.now names member.now) }
{
    let mut names = names;
    if let Some(name) = name_at(words, member.name) {
        names.add(name.copy()?)?;
    }
    Ok(names)
}

/// The names of members.
fn members_of(
    alloc: Global,
    words: &[Word],
    members: &[ModportMember],
) -> Result<Table<Name>, NoMemory>
    ensures { IfOk result (λ names. names ≡ members_of words.now members.now) }
{
    let mut names = Table::new(alloc);
    'members: for member in members {
        names = with_member(words, names, member)?;
    }
    Ok(names)
}

/// Modports, and one more, where it has a name.
fn with_modport(
    alloc: Global,
    words: &[Word],
    all: Table<ModportNames>,
    modport: &Modport,
) -> Result<Table<ModportNames>, NoMemory>
    ensures { IfOk result (λ more. more ≡ with_modport words.now all modport.now) }
{
    let mut all = all;
    if let Some(name) = name_at(words, modport.name) {
        let members = members_of(alloc, words, modport.members.as_slice())?;
        all.add(ModportNames {
            name: name.copy()?,
            members,
        })?;
    }
    Ok(all)
}

/// Modports, and those of a declaration.
fn with_modports(
    alloc: Global,
    words: &[Word],
    all: Table<ModportNames>,
    modports: &[Modport],
) -> Result<Table<ModportNames>, NoMemory>
    ensures { IfOk result (λ more. more ≡ fold (with_modport words.now) all modports.now) }
{
    let mut all = all;
    'modports: for modport in modports {
        all = with_modport(alloc, words, all, modport)?;
    }
    Ok(all)
}

/// Modports, and those that an item declares.
fn with_item_modports(
    alloc: Global,
    words: &[Word],
    all: Table<ModportNames>,
    item: &Item,
) -> Result<Table<ModportNames>, NoMemory>
    ensures { IfOk result (λ more. more ≡ with_item_modports words.now all item.now) }
{
    match item {
        Item::Modports { declaration } => {
            with_modports(alloc, words, all, declaration.modports.as_slice())
        }
        _ => Ok(all),
    }
}

/// The modports that stand among the items of an interface (IEEE 1800-2017, 25.5).
pub(crate) fn modports_of(
    alloc: Global,
    words: &[Word],
    items: &[Item],
) -> Result<Table<ModportNames>, NoMemory>
    ensures { IfOk result (λ all. all ≡ modports_of words.now items.now) }
{
    let mut all = Table::new(alloc);
    'items: for item in items {
        all = with_item_modports(alloc, words, all, item)?;
    }
    Ok(all)
}
