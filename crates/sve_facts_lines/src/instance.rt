ghost use Rattle.std.specs.Prelude.{◌≡◌, ◌-◌, ◌<◌, ◌+◌, ◌++◌, ◌∷◌, ◌^◌, [], IfOk, OnOk, length, map, take};
ghost use Rattle.sve_listing.specs.Lists.{max_listed, on_one_line};
ghost use Rattle.sve_facts_lines.specs.Texts.{direction_word};
ghost use Rattle.sve_facts_lines.specs.Instances.{child_text, data_port_text, face_port_text, face_text, instance_lines, module_text, param_text, port_text};

use crate::line::{append_name, at_text, in_room};
use std::alloc::Global;
use sve_bytes::{Dir, Name, NoMemory};
use sve_diag::Place;
use sve_facts::{Child, Facts, ParameterValue, Port};
use sve_listing::{with_more, with_text};
use sve_report::Lines;
use sve_scope::FaceName;

/// `module <name>`
fn module_text(alloc: Global, definition: &Name) -> Result<Vec<u8>, NoMemory>
    ensures { IfOk result (λ text. text.items ≡ module_text definition.now) }
{
    let mut text = Vec::from_slice(alloc, b"module ")?;
    append_name(alloc, &mut text, definition)?;
    Ok(text)
}

/// `param <name> <value>`
fn param_text(alloc: Global, param: &ParameterValue) -> Result<Vec<u8>, NoMemory>
    ensures { IfOk result (λ text. text.items ≡ param_text param.now) }
{
    let mut text = Vec::from_slice(alloc, b"param ")?;
    append_name(alloc, &mut text, &param.name)?;
    text.push(b' ')?;
    text.extend_from_slice(&sve_value_text::print(alloc, &param.value)?)?;
    Ok(text)
}

/// The word of a direction (IEEE 1800-2017, 23.2.2).
fn direction_word(direction: Dir) -> &'static [u8]
    ensures { result.now ≡ direction_word direction }
{
    match direction {
        Dir::Input => b"input",
        Dir::Output => b"output",
        Dir::Inout => b"inout",
    }
}

/// Adds `<interface>` or `<interface>.<modport>`.
fn append_face(alloc: Global, text: &mut Vec<u8>, face: &FaceName) -> Result<(), NoMemory>
    ensures { OnOk result (text.new.items ≡ text.old.items ++ face_text face.now) }
{
    append_name(alloc, text, &face.interface)?;
    if let Some(modport) = &face.modport {
        text.push(b'.')?;
        append_name(alloc, text, modport)?;
    }
    Ok(())
}

/// `port <interface>[.<modport>] <name>`, of an interface port (25.3).
fn face_port_text(alloc: Global, name: &Name, face: &FaceName) -> Result<Vec<u8>, NoMemory>
    ensures { IfOk result (λ text. text.items ≡ face_port_text name.now face.now) }
{
    let mut text = Vec::from_slice(alloc, b"port ")?;
    append_face(alloc, &mut text, face)?;
    text.push(b' ')?;
    append_name(alloc, &mut text, name)?;
    Ok(text)
}

/// `port <direction> <name> <type>`
fn data_port_text(alloc: Global, port: &Port) -> Result<Vec<u8>, NoMemory>
    ensures { IfOk result (λ text. text.items ≡ data_port_text port.now) }
{
    let mut text = Vec::from_slice(alloc, b"port ")?;
    text.extend_from_slice(direction_word(port.direction))?;
    text.push(b' ')?;
    append_name(alloc, &mut text, &port.name)?;
    text.push(b' ')?;
    text.extend_from_slice(&sve_types::print(alloc, port.ty.ty())?)?;
    Ok(text)
}

/// The line of a port.
fn port_text(alloc: Global, port: &Port) -> Result<Vec<u8>, NoMemory>
    ensures { IfOk result (λ text. text.items ≡ port_text port.now) }
{
    match &port.face {
        Some(face) => face_port_text(alloc, &port.name, face),
        None => data_port_text(alloc, port),
    }
}

/// `child <relative path> <module>`
fn child_text(alloc: Global, child: &Child) -> Result<Vec<u8>, NoMemory>
    ensures { IfOk result (λ text. text.items ≡ child_text child.now) }
{
    let mut text = Vec::from_slice(alloc, b"child ")?;
    text.extend_from_slice(&child.path.print(alloc)?)?;
    text.push(b' ')?;
    append_name(alloc, &mut text, &child.spec.definition)?;
    Ok(text)
}

/// These lines and those of parameters, as far as there is room.
fn with_params(alloc: Global, lines: Lines, params: &[ParameterValue]) -> Result<Lines, NoMemory>
    ensures { IfOk result (λ all. all ≡ lines ++ map (λ p. on_one_line (param_text p)) (take (max_listed - length lines) params.now)) }
{
    let room = in_room(&lines, params);
    let mut all = lines;
    'params: for param in room {
        all = with_text(all, param_text(alloc, param)?)?;
    }
    Ok(all)
}

/// These lines and those of ports, as far as there is room.
fn with_ports(alloc: Global, lines: Lines, ports: &[Port]) -> Result<Lines, NoMemory>
    ensures { IfOk result (λ all. all ≡ lines ++ map (λ p. on_one_line (port_text p)) (take (max_listed - length lines) ports.now)) }
{
    let room = in_room(&lines, ports);
    let mut all = lines;
    'ports: for port in room {
        all = with_text(all, port_text(alloc, port)?)?;
    }
    Ok(all)
}

/// These lines and those of instances, as far as there is room.
fn with_children(alloc: Global, lines: Lines, children: &[Child]) -> Result<Lines, NoMemory>
    ensures { IfOk result (λ all. all ≡ lines ++ map (λ c. on_one_line (child_text c)) (take (max_listed - length lines) children.now)) }
{
    let room = in_room(&lines, children);
    let mut all = lines;
    'children: for child in room {
        all = with_text(all, child_text(alloc, child)?)?;
    }
    Ok(all)
}

/// The lines of an instance: the name of its module or interface; where its own name stands, or of a top its module's; each
/// parameter that can be overridden and has a value, with the value; each port, with its direction and type, or with its interface;
/// and each instance in its body, with its path from there (IEEE 1800-2017, clause 23). There are 1,000 at most; where there would
/// be more, one line more says how many are left out.
///
/// # Errors
/// For want of memory alone.
pub fn instance_lines(
    alloc: Global,
    definition: &Name,
    at: &Place,
    text: &[u8],
    facts: &Facts,
) -> Result<Lines, NoMemory>
    requires small { length text.now + 1 < 2 ^ 32 }
    ensures { IfOk result (λ lines. lines ≡ instance_lines definition.now at.now text.now facts.now) }
{
    let lines = with_text(Lines::none(alloc), module_text(alloc, definition)?)?;
    let lines = with_text(lines, at_text(alloc, at, text)?)?;
    let lines = with_params(alloc, lines, facts.params.items())?;
    let lines = with_ports(alloc, lines, facts.ports.items())?;
    let lines = with_children(alloc, lines, facts.children.items())?;
    let count = 2
        + facts.params.items().len()
        + facts.ports.items().len()
        + facts.children.items().len();
    with_more(alloc, lines, count)
}
