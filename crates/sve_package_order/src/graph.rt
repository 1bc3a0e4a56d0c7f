ghost use Rattle.std.specs.Prelude.{◌≡◌, IfOk, option_map};
ghost use Rattle.std.specs.List.{filter_map};
ghost use Rattle.sve_table.specs.Tables.{item_of, table_of};
ghost use Rattle.sve_package_order.specs.Graph.{graph_of, numbered, place_name};

use crate::PackageImports;
use std::alloc::Global;
use sve_bytes::{List, Name, NoMemory};
use sve_table::{Named, Table};

/// The place of a package, counted from 0.
#[derive(Drop)]
struct Place {
    /// The name of the package.
    name: Name,
    /// Its place.
    at: usize,
}

impl Named for Place {
    ghost called = { λ p. p.name };

    fn name(&self) -> &Name {
        &self.name
    }
}

/// The places of packages by their names, of two of one name that of the first.
fn places(alloc: Global, packages: &[PackageImports]) -> Result<Table<Place>, NoMemory>
    ensures { IfOk result (λ t. t ≡ table_of place_name (numbered 0 packages.now)) }
{
    let mut table = Table::new(alloc);
    'packages: for (at, package) in packages.iter().enumerate() {
        table.add(Place {
            name: package.name.copy()?,
            at,
        })?;
    }
    Ok(table)
}

/// The place of a name.
fn place_in(table: &Table<Place>, name: &Name) -> Option<usize>
    ensures { result ≡ option_map (λ p. p.at) (item_of place_name name.now table.now) }
{
    match table.get(name) {
        Some(place) => Some(place.at),
        None => None,
    }
}

/// The places of those of these names that have one.
fn places_of(alloc: Global, names: &[Name], table: &Table<Place>) -> Result<List<usize>, NoMemory>
    ensures { IfOk result (λ qs. qs ≡ filter_map (λ name. option_map (λ p. p.at) (item_of place_name name table.now)) names.now) }
{
    let mut found = Vec::new(alloc);
    'names: for name in names {
        if let Some(at) = place_in(table, name) {
            found.push(at)?;
        }
    }
    Ok(List::of(found))
}

/// For each package the places of those that it imports.
pub(crate) fn import_graph(
    alloc: Global,
    packages: &[PackageImports],
) -> Result<Vec<List<usize>>, NoMemory>
    ensures { IfOk result (λ graph. graph.items ≡ graph_of packages.now) }
{
    let table = places(alloc, packages)?;
    let mut rows = Vec::new(alloc);
    'rows: for package in packages {
        rows.push(places_of(alloc, package.imports.items(), &table)?)?;
    }
    Ok(rows)
}
