//! The ports of a header, with what is known of its interface ports.
ghost use Rattle.std.specs.Prelude.{◌≡◌, IfOk};
ghost use Rattle.sve_fault.specs.Counts.{IsFuel};
ghost use Rattle.sve_plan.specs.Follows.{Meters};
ghost use Rattle.sve_scoped.specs.Known.{told_in};
ghost use Rattle.sve_elaboration.specs.Modports.{modports_said, ports_known};

use std::alloc::Global;
use sve_bytes::NoMemory;
use sve_child::all_said;
use sve_contents::Contents;
use sve_design_kinds::Designs;
use sve_diag::Code;
use sve_fault::{Fuel, Halted};
use sve_header::{HeaderPorts, with_header_ports};
use sve_scoped::Text;
use sve_tree::{Header, Word};

/// What the ports of a header leave, where it is said which modports their interfaces do not have.
fn modports_said(
    alloc: Global,
    words: &[Word],
    designs: &Designs<'_>,
    header: &Header,
    found: HeaderPorts,
) -> Result<HeaderPorts, NoMemory>
    ensures { IfOk result (λ h. h ≡ modports_said words.now designs.now header.now found) }
{
    let tokens = designs.unknown_modports(alloc, header)?;
    let HeaderPorts { contents, ports } = found;
    let contents = all_said(words, contents, Code::E11, tokens.as_slice())?;
    Ok(HeaderPorts { contents, ports })
}

/// What the ports of a header leave, where it is known what its interface ports are connected to (IEEE 1800-2017, 23.2.2 and 25.3). Modports
/// that their interfaces do not have are said (E11; 25.5).
///
/// # Errors
/// `Over` exactly where the nodes pass the most that may be evaluated, and `NoMemory`.
pub(crate) fn ports_known(
    alloc: Global,
    text: Text<'_>,
    designs: &Designs<'_>,
    contents: Contents,
    header: &Header,
    fuel: &mut Fuel,
) -> Result<HeaderPorts, Halted>
    requires { IsFuel fuel.old }
    ensures { Meters fuel.old fuel.new (ports_known (told_in text.entry.packages.now text.entry.words.now) text.entry.words.now designs.now contents header.now) result }
{
    let faces = designs.faces();
    let found = with_header_ports(alloc, text, designs, faces, contents, header, fuel)?;
    Ok(modports_said(alloc, text.words, designs, header, found)?)
}
