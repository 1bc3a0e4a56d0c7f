//! The scope of the compilation unit around a body.
ghost use Rattle.std.specs.Prelude.{◌≡◌, [], IfOk};
ghost use Rattle.std.specs.List.{fold};
ghost use Rattle.sve_unit_scope.specs.Elements.{with_element};
ghost use Rattle.sve_unit_scope.specs.Units.{unit_before, with_unit_items};
ghost use Rattle.sve_function.specs.Readings.{readings};
ghost use Rattle.sve_project.specs.Projects.{known_in, tree_in};
ghost use Rattle.sve_named.specs.Named.{elements_of, scope_around_body, unit_scope};

use std::alloc::Global;
use sve_bytes::{Name, NoMemory};
use sve_contents::Contents;
use sve_function::Constants;
use sve_index::Def;
use sve_package::with_unit_items;
use sve_project::Project;
use sve_scope::Scope;
use sve_tree::Element;

/// The scope behind the items that the element of one chunk more has in front of its definition.
fn with_chunk(
    alloc: Global,
    project: &Project,
    file: &Name,
    contents: Contents,
    chunk: u32,
) -> Result<Contents, NoMemory>
    ensures { IfOk result (λ c. c ≡ fold (with_unit_items readings (known_in project.now) file.now) contents (with_element [] chunk (tree_in project.now file.now chunk))) }
{
    match project.tree(file, chunk) {
        Some(tree) => {
            with_unit_items(
                alloc,
                &Constants,
                project.packages(),
                contents,
                file,
                chunk,
                tree,
            )
        }
        None => Ok(contents),
    }
}

/// The scope of the compilation unit behind the chunks of a file in front of one.
fn unit_before(
    alloc: Global,
    project: &Project,
    file: &Name,
    chunk: u32,
) -> Result<Contents, NoMemory>
    ensures { IfOk result (λ c. c ≡ unit_before readings (known_in project.now) file.now chunk (elements_of project.now file.now chunk)) }
{
    let mut contents = Contents::new(alloc, file.copy()?, chunk);
    'chunks: for before in 0..chunk {
        contents = with_chunk(alloc, project, file, contents, before)?;
    }
    Ok(contents)
}

/// The scope of the compilation unit as the definition of an element sees it, which stands there.
fn unit_scope(alloc: Global, project: &Project, def: &Def, own: &Element) -> Result<Scope, NoMemory>
    ensures { IfOk result (λ s. s ≡ unit_scope project.now def.now own.now) }
{
    let contents = unit_before(alloc, project, &def.file, def.chunk)?;
    let contents = with_unit_items(
        alloc,
        &Constants,
        project.packages(),
        contents,
        &def.file,
        def.chunk,
        own,
    )?;
    let mut scope = contents.finished().scope;
    scope.file = def.file.copy()?;
    scope.chunk = def.chunk;
    Ok(scope)
}

/// The scope around the body of the module or the interface of this name.
pub(crate) fn scope_around_body(
    alloc: Global,
    project: &Project,
    definition: &Name,
) -> Result<Option<Scope>, NoMemory>
    ensures { IfOk result (λ s. s ≡ scope_around_body project.now definition.now) }
{
    let Some(def) = project.index().definitions.get(definition) else {
        return Ok(None);
    };
    match project.tree(&def.file, def.chunk) {
        Some(own) => Ok(Some(unit_scope(alloc, project, def, own)?)),
        None => Ok(None),
    }
}
