ghost use Rattle.std.specs.Prelude.{◌≡◌, ◌<◌, ◌^◌, IfOk, length, map};
ghost use Rattle.sve_package_order.specs.Search.{found};
ghost use Rattle.sve_package_order.specs.Rounds.{HaveTheirRounds, rounds_of};

use crate::PackageImports;
use crate::graph::import_graph;
use crate::progress::{Progress, found};
use crate::search::solved;
use std::alloc::Global;
use sve_bytes::NoMemory;

/// The rounds that were found.
fn rounds_in(alloc: Global, progress: &[Progress]) -> Result<Vec<Option<u32>>, NoMemory>
    ensures { IfOk result (λ rounds. rounds.items ≡ map found progress.now) }
{
    let mut rounds = Vec::new(alloc);
    'rounds: for each in progress {
        rounds.push(found(*each))?;
    }
    Ok(rounds)
}

/// The round of each package of a design: the first, from 0, in which all packages of the design that it imports have an earlier
/// one. A package on a cycle of imports, or leading to one, has none (own). Of two packages of one name the first counts.
///
/// It takes time in proportion to the packages and their imports.
///
/// # Errors
/// For want of memory alone.
pub fn order(alloc: Global, packages: &[PackageImports]) -> Result<Vec<Option<u32>>, NoMemory>
    requires { length packages.now < 2 ^ 32 }
    ensures rounds { IfOk result (λ rounds. rounds.items ≡ rounds_of packages.now) }
    ensures first { IfOk result (λ _. HaveTheirRounds packages.now) }
{
    let graph = import_graph(alloc, packages)?;
    let progress = solved(alloc, graph.as_slice())?;
    rounds_in(alloc, progress.as_slice())
}
