//! The parameters so far.
ghost use Rattle.std.specs.Prelude.{◌≡◌, IfOk, option_map};
ghost use Rattle.sve_resolve.specs.Known.{resolved_of, with_resolved};

use sve_bytes::{List, Name, NoMemory};
use sve_scope::SharedType;
use sve_table::{Named, Table};
use sve_types::Value;

/// A parameter of a header with its final type and value.
pub struct Resolved {
    /// Its name.
    pub name: Name,
    /// The number of the token of its name in its chunk.
    pub token: u32,
    /// Whether no instance may override it.
    pub is_local: bool,
    /// Its type, where it is known: without a written type it has that of its value.
    pub ty: Option<SharedType>,
    /// Its value, where it has one: it has none where something was said of it, or of an override of it.
    pub value: Option<Value>,
}

impl Drop for Resolved {
    fn drop(self) {
        let Resolved {
            name: _,
            token: _,
            is_local: _,
            ty: _,
            value: _,
        } = self;
    }
}

/// The name of a parameter, and its place among the parameters.
#[derive(Drop)]
pub(crate) struct Entry {
    pub(crate) name: Name,
    pub(crate) place: usize,
}

impl Named for Entry {
    ghost called = { λ e. e.name };

    fn name(&self) -> &Name {
        &self.name
    }
}

/// Parameters in order, found by their names; of two of one name the first.
#[derive(Drop)]
pub(crate) struct Known {
    pub(crate) names: Table<Entry>,
    pub(crate) parameters: List<Resolved>,
}

/// One more.
pub(crate) fn with_resolved(known: Known, resolved: Resolved) -> Result<Known, NoMemory>
    ensures { IfOk result (λ k. k ≡ with_resolved known resolved) }
{
    let Known { names, parameters } = known;
    let mut names = names;
    let mut parameters = parameters.into_vec();
    let place = parameters.len();
    let name = resolved.name.copy()?;
    names.add(Entry { name, place })?;
    parameters.push(resolved)?;
    Ok(Known {
        names,
        parameters: List::of(parameters),
    })
}

/// The parameter of a name.
pub(crate) fn resolved_of<'a>(known: &'a Known, name: &Name) -> Option<&'a Resolved>
    ensures { option_map (λ r. r.now) result ≡ resolved_of known.now name.now }
{
    match known.names.get(name) {
        Some(entry) => known.parameters.items().get(entry.place),
        None => None,
    }
}
