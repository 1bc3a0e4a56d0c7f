//! Modports in a body.
ghost use Rattle.std.specs.Prelude.{◌≡◌, IfOk, option_map};
ghost use Rattle.std.specs.List.{fold};
ghost use Rattle.sve_scope.specs.Interfaces.{is_among};
ghost use Rattle.sve_known.specs.Naming.{name_at};
ghost use Rattle.sve_elaboration.specs.Modports.{member_named, member_said, member_unless, modport_said, with_modport};

use sve_bytes::{Name, NoMemory};
use sve_child::token_said;
use sve_contents::Contents;
use sve_design_kinds::Designs;
use sve_diag::Code;
use sve_known::name_at;
use sve_scope::{InterfaceNames, What};
use sve_scoped::declared_at;
use sve_tree::{Modport, ModportMember, Word};

/// Whether an interface declares a name.
fn is_among(own: &InterfaceNames, name: &Name) -> bool
    ensures { result ≡ is_among name.now own.now.all }
{
    own.all.get(name).is_some()
}

/// Says of a name that the interface does not declare it, unless it does.
fn member_unless(
    contents: Contents,
    declared: bool,
    token: u32,
    member: &Name,
) -> Result<Contents, NoMemory>
    ensures { IfOk result (λ c. c ≡ member_unless declared contents token member.now) }
{
    if declared {
        return Ok(contents);
    }
    contents.remarked(token, Code::N01, member.copy()?)
}

/// The same of the name of a member, where it has one.
fn member_named(
    contents: Contents,
    own: &InterfaceNames,
    token: u32,
    member: Option<&Name>,
) -> Result<Contents, NoMemory>
    ensures { IfOk result (λ c. c ≡ member_named own.now contents token (option_map (λ n. n.now) member.entry)) }
{
    match member {
        Some(member) => member_unless(contents, is_among(own, member), token, member),
        None => Ok(contents),
    }
}

/// Says of a member that the interface does not declare it, where it does not.
fn member_said(
    words: &[Word],
    contents: Contents,
    own: &InterfaceNames,
    member: ModportMember,
) -> Result<Contents, NoMemory>
    ensures { IfOk result (λ c. c ≡ member_said words.now own.now contents member) }
{
    member_named(contents, own, member.name, name_at(words, member.name))
}

/// Says it of members, one after another.
fn members_said(
    words: &[Word],
    contents: Contents,
    own: &InterfaceNames,
    members: &[ModportMember],
) -> Result<Contents, NoMemory>
    ensures { IfOk result (λ c. c ≡ fold (member_said words.now own.now) contents members.now) }
{
    let mut contents = contents;
    'members: for member in members {
        contents = member_said(words, contents, own, *member)?;
    }
    Ok(contents)
}

/// Says what is wrong with a modport: that it stands outside of an interface, or which of its members its interface does not declare.
fn modport_said(
    words: &[Word],
    contents: Contents,
    own: &Option<InterfaceNames>,
    modport: &Modport,
) -> Result<Contents, NoMemory>
    ensures { IfOk result (λ c. c ≡ modport_said words.now own.now contents modport.now) }
{
    match own {
        Some(own) => members_said(words, contents, own, modport.members.as_slice()),
        None => token_said(words, contents, Code::E13, modport.name),
    }
}

/// The scope behind a modport (IEEE 1800-2017, 25.5): it is declared there, and it is said that it stands outside of an interface (E13), or
/// which of its members its interface does not declare (N01).
///
/// # Errors
/// For want of memory alone.
pub(crate) fn with_modport(
    words: &[Word],
    contents: Contents,
    designs: &Designs<'_>,
    modport: &Modport,
) -> Result<Contents, NoMemory>
    ensures { IfOk result (λ c. c ≡ with_modport words.now designs.now contents modport.now) }
{
    let contents = modport_said(words, contents, designs.own(), modport)?;
    declared_at(words, contents, modport.name, What::Modport, modport.name)
}
