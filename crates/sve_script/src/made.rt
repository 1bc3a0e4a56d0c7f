//! Generated sessions, as large as one asks for.
ghost use Rattle.std.specs.Prelude.{◌≡◌, ◌≤◌, ◌++◌, [], ◌∷◌, None, true, map, IfOk, OnOk, codes, decimal};
ghost use Rattle.std.specs.List.{flat_map};
ghost use Rattle.sve_bytes.specs.FileName.{is_file_name_of};
ghost use Rattle.sve_text.specs.declared.edit.Edit.TheVariants.{Put};
ghost use Rattle.sve_text.specs.declared.edit.Mode.TheVariants.{Pinned};
ghost use Rattle.sve_command.specs.declared.commands.Command.TheVariants.{Commit, Ask};
ghost use Rattle.sve_command.specs.declared.commands.Query.TheVariants.{TypeOf};
ghost use Rattle.sve_script.specs.Limits.{AreInLimits};
ghost use Rattle.sve_script.specs.Made.{package_name, package_text, leaf_name, leaf_text, top_name, instance_text, leaves, top_text, made_files, made_commands, made_session};

use crate::sessions::Script;
use itoa::Buffer;
use std::alloc::Global;
use sve_bytes::{List, Name, NoMemory};
use sve_command::{Command, Query};
use sve_text::{Edit, Files, Mode, Text, file_name};

/// The greatest number of modules of a generated session (own). With the package and the top there are then still fewer
/// files than may be there at once.
pub const MAX_MADE: u32 = 2_000;

/// The width that the package has before the first commit.
const FIRST_WIDTH: u32 = 8;

/// The width with which the commit puts the package. It is another, so that no module stays as it was.
const SECOND_WIDTH: u32 = 16;

fn add_words(text: &mut Vec<u8>, words: &[u8]) -> Result<(), NoMemory>
    ensures { OnOk result (text.new.items ≡ text.old.items ++ words.now) }
{
    text.extend_from_slice(words)
}

fn add_number(text: &mut Vec<u8>, n: u32) -> Result<(), NoMemory>
    ensures { OnOk result (text.new.items ≡ text.old.items ++ decimal n) }
{
    text.extend_from_slice(Buffer::new().format(n).as_bytes())
}

/// The name of these bytes, which are the name of a file.
fn name(alloc: Global, bytes: &[u8]) -> Result<Name, NoMemory>
    requires { is_file_name_of bytes.now ≡ true }
    ensures { IfOk result (λ name. name ≡ bytes.now) }
{
    Ok(file_name(alloc, bytes)?.unwrap())
}

/// `package p; parameter W = <width>; endpackage`
fn package_text(alloc: Global, width: u32) -> Result<Text, NoMemory>
    ensures { IfOk result (λ text. text ≡ package_text width) }
{
    let mut text = Vec::new(alloc);
    add_words(&mut text, b"package p; parameter W = ")?;
    add_number(&mut text, width)?;
    add_words(&mut text, b"; endpackage\n")?;
    Text::of(alloc, List::of(text))
}

/// The package with the first width.
fn package_file(alloc: Global) -> Result<(Name, Text), NoMemory>
    ensures { IfOk result (λ file. file ≡ (package_name, package_text 8)) }
{
    let text = package_text(alloc, FIRST_WIDTH)?;
    Ok((name(alloc, b"pkg.sv")?, text))
}

/// `leaf<i>.sv`
fn leaf_name(alloc: Global, i: u32) -> Result<Name, NoMemory>
    ensures { IfOk result (λ name. name ≡ leaf_name i) }
{
    let mut bytes = Vec::new(alloc);
    add_words(&mut bytes, b"leaf")?;
    add_number(&mut bytes, i)?;
    add_words(&mut bytes, b".sv")?;
    name(alloc, &bytes)
}

/// `module leaf<i>(input logic [p::W-1:0] a); endmodule`
fn leaf_text(alloc: Global, i: u32) -> Result<Text, NoMemory>
    ensures { IfOk result (λ text. text ≡ leaf_text i) }
{
    let mut text = Vec::new(alloc);
    add_words(&mut text, b"module leaf")?;
    add_number(&mut text, i)?;
    add_words(&mut text, b"(input logic [p::W-1:0] a); endmodule\n")?;
    Text::of(alloc, List::of(text))
}

/// Adds the file of each module, in the order of their numbers.
fn add_leaves(alloc: Global, files: &mut Vec<(Name, Text)>, n: u32) -> Result<(), NoMemory>
    ensures { OnOk result (files.new.items ≡ files.old.items ++ map (λ i. (leaf_name i, leaf_text i)) (leaves n)) }
{
    for i in 0..n {
        let text = leaf_text(alloc, i)?;
        files.push((leaf_name(alloc, i)?, text))?;
    }
    Ok(())
}

/// ` leaf<i> u<i>(.a(x));`
fn add_instance(text: &mut Vec<u8>, i: u32) -> Result<(), NoMemory>
    ensures { OnOk result (text.new.items ≡ text.old.items ++ instance_text i) }
{
    add_words(text, b" leaf")?;
    add_number(text, i)?;
    add_words(text, b" u")?;
    add_number(text, i)?;
    add_words(text, b"(.a(x));\n")
}

/// Adds an instance of each module, in the order of their numbers.
fn add_instances(text: &mut Vec<u8>, n: u32) -> Result<(), NoMemory>
    ensures { OnOk result (text.new.items ≡ text.old.items ++ flat_map instance_text (leaves n)) }
{
    for i in 0..n {
        add_instance(text, i)?;
    }
    Ok(())
}

/// The module `top`, with an instance of each module.
fn top_file(alloc: Global, n: u32) -> Result<(Name, Text), NoMemory>
    ensures { IfOk result (λ file. file ≡ (top_name, top_text n)) }
{
    let mut text = Vec::new(alloc);
    add_words(&mut text, b"module top;\n logic [p::W-1:0] x;\n")?;
    add_instances(&mut text, n)?;
    add_words(&mut text, b"endmodule\n")?;
    let text = Text::of(alloc, List::of(text))?;
    Ok((name(alloc, b"top.sv")?, text))
}

/// The files before the first commit: the package, the modules and the top.
fn files(alloc: Global, n: u32) -> Result<Vec<(Name, Text)>, NoMemory>
    ensures { IfOk result (λ files. files.items ≡ made_files n) }
{
    let mut files = Vec::new(alloc);
    files.push(package_file(alloc)?)?;
    add_leaves(alloc, &mut files, n)?;
    files.push(top_file(alloc, n)?)?;
    Ok(files)
}

/// The commit that puts the package with the second width.
fn new_width(alloc: Global) -> Result<Command, NoMemory>
    ensures { IfOk result (λ command. command ≡ Commit (Put package_name (package_text 16) ∷ [])) }
{
    let text = package_text(alloc, SECOND_WIDTH)?;
    let name = name(alloc, b"pkg.sv")?;
    let mut edits = Vec::new(alloc);
    edits.push(Edit::Put { name, text })?;
    Ok(Command::Commit(List::of(edits)))
}

/// The query for the type of the port `a` of the first instance.
fn port_type(alloc: Global) -> Result<Query, NoMemory>
    ensures { IfOk result (λ query. query ≡ TypeOf (codes "top.u0") (codes "a")) }
{
    let path = List::of(Vec::from_slice(alloc, b"top.u0")?);
    let name = List::of(Vec::from_slice(alloc, b"a")?);
    Ok(Query::TypeOf { path, name })
}

/// The ask that is answered at the revision at which it began, with the budget of the run.
fn ask(query: Query) -> Command
    ensures { result ≡ Ask query Pinned None }
{
    Command::Ask {
        query,
        mode: Mode::Pinned,
        budget: None,
    }
}

/// The commands of the one client.
fn commands(alloc: Global) -> Result<List<Command>, NoMemory>
    ensures { IfOk result (λ commands. commands ≡ made_commands) }
{
    let mut commands = Vec::new(alloc);
    commands.push(ask(Query::Tree))?;
    commands.push(ask(Query::Diagnostics))?;
    commands.push(new_width(alloc)?)?;
    commands.push(ask(port_type(alloc)?))?;
    Ok(List::of(commands))
}

/// The clients, of which there is one.
fn clients(alloc: Global) -> Result<List<List<Command>>, NoMemory>
    ensures { IfOk result (λ clients. clients ≡ made_commands ∷ []) }
{
    let mut clients = Vec::new(alloc);
    clients.push(commands(alloc)?)?;
    Ok(List::of(clients))
}

/// The generated session of `n` modules, from 1 to [`MAX_MADE`] of them.
///
/// Its files are `pkg.sv`, a package `p` with a parameter `W`; for each number from 0 to `n - 1` a file `leaf<i>.sv`, a
/// module `leaf<i>` with one port `a` of `W` bits; and `top.sv`, a module `top` with an instance `u<i>` of each. Its one
/// client asks for the tree and for what is wrong with the design, puts the package with another `W`, on which every
/// module stands, and asks for the type of the port of the first instance.
///
/// # Errors
/// For want of memory alone.
pub fn made_session(alloc: Global, n: u32) -> Result<Script, NoMemory>
    requires some { 1 ≤ n }
    requires few { n ≤ MAX_MADE }
    ensures session { IfOk result (λ script. script ≡ made_session n) }
    ensures limits_kept { IfOk result (λ script. AreInLimits script.clients) }
{
    let clients = clients(alloc)?;
    let files = Files::of(alloc, files(alloc, n)?)?;
    Ok(Script { files, clients })
}
