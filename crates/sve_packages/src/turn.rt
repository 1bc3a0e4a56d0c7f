//! In which order the packages of a design have their turns.
ghost use Rattle.std.specs.Prelude.{◌≡◌, IfOk};
ghost use Rattle.sve_packages.specs.Turns.{numbered, turns};

use std::alloc::Global;
use sve_bytes::{List, NoMemory};
use sve_ordered::ordered;

/// The turn of a package. Turns go by their rounds, of which a missing one is first, and then by their places.
#[derive(Clone, Copy, PartialEq, Eq, PartialOrd, Ord)]
pub(crate) struct Turn {
    /// The round of the package; it has none on a cycle of imports, and where it leads to one.
    pub(crate) round: Option<u32>,
    /// Its place among the packages of the design, from 0.
    pub(crate) place: usize,
}

/// The turns of packages with these rounds, in the order of their places.
fn numbered(alloc: Global, rounds: &[Option<u32>]) -> Result<Vec<Turn>, NoMemory>
    ensures { IfOk result (λ all. all.items ≡ numbered 0 rounds.now) }
{
    let mut all = Vec::new(alloc);
    'rounds: for (place, round) in rounds.iter().enumerate() {
        all.push(Turn {
            round: *round,
            place,
        })?;
    }
    Ok(all)
}

/// The turns of packages with these rounds, in their order.
///
/// # Errors
/// For want of memory alone.
pub(crate) fn turns(alloc: Global, rounds: &[Option<u32>]) -> Result<List<Turn>, NoMemory>
    ensures { IfOk result (λ all. all ≡ turns rounds.now) }
{
    let all = numbered(alloc, rounds)?;
    ordered(all)
}
