//! Instances in the scope in which they stand.
ghost use Rattle.std.specs.Prelude.{◌≡◌, IfOk, None, option_map};
ghost use Rattle.sve_nested.specs.Blocks.{path_to};
ghost use Rattle.sve_child.specs.Children.{child_named, placed_as, placed_in, with_child, with_faces, with_no_child};

use crate::connecting::names_connected;
use crate::faces::{faces_given, pairs_said};
use std::alloc::Global;
use sve_around::Instances;
use sve_bytes::{List, Name, NoMemory, Path, Step};
use sve_contents::Contents;
use sve_facts::{Child, Port};
use sve_instance::{Connections, with_connections, with_unknown};
use sve_known::name_at;
use sve_scoped::Text;
use sve_spec::{FaceGiven, Spec};
use sve_tree::{Instance, Word};
use sve_used_names::arguments_used;

/// What an instance of a specialization leaves.
#[derive(Drop)]
pub struct Placed {
    /// The scope, and what is to be said of it.
    pub contents: Contents,
    /// The child that it is, where it has a name.
    pub child: Option<Child>,
}

/// The path of an instance of this name in the scope of a path.
fn path_to(alloc: Global, path: &Path, name: &Name) -> Result<Path, NoMemory>
    ensures { IfOk result (λ p. p ≡ path_to path.now name.now None) }
{
    let Path { steps } = path.copy(alloc)?;
    let mut steps = steps.into_vec();
    steps.push(Step {
        name: name.copy()?,
        index: None,
    })?;
    Ok(Path {
        steps: List::of(steps),
    })
}

/// The child of this name in the scope of a path.
fn child_named(
    alloc: Global,
    path: &Path,
    name: Option<&Name>,
    spec: Spec,
    token: u32,
    unconnected: List<Name>,
) -> Result<Option<Child>, NoMemory>
    ensures { IfOk result (λ c. c ≡ child_named path.now (option_map (λ n. n.now) name.entry) spec token unconnected) }
{
    let Some(name) = name else {
        return Ok(None);
    };
    let path = path_to(alloc, path, name)?;
    Ok(Some(Child {
        path,
        spec,
        token,
        unconnected,
    }))
}

/// The child whose name is at a token, behind what its connections leave.
fn placed_as(
    alloc: Global,
    words: &[Word],
    path: &Path,
    spec: Spec,
    token: u32,
    left: Connections,
) -> Result<Placed, NoMemory>
    ensures { IfOk result (λ p. p ≡ placed_as words.now path.now spec token left) }
{
    let Connections {
        contents,
        pairs: _,
        unconnected,
    } = left;
    let name = name_at(words, token);
    let child = child_named(alloc, path, name, spec, token, unconnected)?;
    Ok(Placed { contents, child })
}

/// A specialization whose interface ports are given this.
fn with_faces(spec: Spec, faces: List<FaceGiven>) -> Spec
    ensures { result ≡ with_faces spec faces }
{
    let Spec {
        definition,
        values,
        faces: _,
    } = spec;
    Spec {
        definition,
        values,
        faces,
    }
}

/// The child behind what its connections leave, with what its interface ports are given.
fn placed_in<I: Instances>(
    alloc: Global,
    text: Text<'_>,
    instances: &I,
    path: &Path,
    spec: Spec,
    ports: &[Port],
    instance: &Instance,
    left: Connections,
) -> Result<Placed, NoMemory>
    ensures { IfOk result (λ p. p ≡ placed_in text.entry.packages.now text.entry.words.now (I.modports instances.now) path.now spec ports.now instance.now left) }
{
    let Connections {
        contents,
        pairs,
        unconnected,
    } = left;
    let given = pairs.items();
    let faces = faces_given(
        alloc, text.words, &contents, instances, ports, instance, given,
    )?;
    let contents = pairs_said(alloc, text, contents, instances, ports, instance, given)?;
    let spec = with_faces(spec, faces);
    let left = Connections {
        contents,
        pairs,
        unconnected,
    };
    placed_as(alloc, text.words, path, spec, instance.name, left)
}

/// What an instance of this specialization leaves in the scope of a path of the body, where the specialization has these ports
/// (IEEE 1800-2017, 23.3): the names in its connections are used, its name is declared, and what is wrong with its connections is said.
/// The child's path is that of the scope and its own name; without a name it is none. Its interface ports are given what stands in their
/// connections (25.3 and 25.5).
///
/// # Errors
/// For want of memory alone.
pub fn with_child<I: Instances>(
    alloc: Global,
    text: Text<'_>,
    contents: Contents,
    instances: &I,
    path: &Path,
    spec: Spec,
    ports: &[Port],
    instance: &Instance,
) -> Result<Placed, NoMemory>
    ensures { IfOk result (λ p. p ≡ with_child text.entry.packages.now text.entry.words.now (I.interfaces instances.now) (I.modports instances.now) contents path.now spec ports.now instance.now) }
{
    let contents = names_connected(alloc, text, contents, instances, ports, instance)?;
    let left = with_connections(alloc, text, contents, instances, ports, instance)?;
    placed_in(alloc, text, instances, path, spec, ports, instance, left)
}

/// What an instance without a specialization leaves, which is no child (IEEE 1800-2017, 23.3.2): the names in its connections are used,
/// and its name is declared.
///
/// # Errors
/// For want of memory alone.
pub fn with_no_child<I: Instances>(
    alloc: Global,
    text: Text<'_>,
    contents: Contents,
    instances: &I,
    instance: &Instance,
) -> Result<Contents, NoMemory>
    ensures { IfOk result (λ c. c ≡ with_no_child text.entry.packages.now text.entry.words.now (I.interfaces instances.now) contents instance.now) }
{
    let contents = arguments_used(alloc, text, contents, &instance.connections)?;
    with_unknown(alloc, text, contents, instances, instance)
}
