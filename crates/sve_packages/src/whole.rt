ghost use Rattle.std.specs.Prelude.{◌≡◌, ◌<◌, ◌^◌, IfOk, length, map};
ghost use Rattle.sve_packages.specs.Packages.{package_text, packages_of};

use crate::design_package::packages_named;
use crate::facts::in_turn;
use crate::imported::rounds;
use crate::sharing::KnownPackages;
use crate::turn::turns;
use std::alloc::Global;
use sve_bytes::NoMemory;
use sve_index::FileElement;
use sve_known::Known;
use sve_table::Table;

/// The packages of a design, each under its name, with what is found of it over the packages that have their turns in front of it
/// (IEEE 1800-2017, clause 26): first those on cycles of imports or leading to one, which have no scope (N08; own), and then round by
/// round. The round of a package is the first in which all packages of the design that it imports had an earlier one; within a round they
/// have their turns as they are given. The elements are those of the packages of an index, in its order, of which no two have one name; of
/// two of one name that one would count whose turn is first, and an element without a package counts for nothing.
///
/// Beside what is found of each package it takes time in proportion to the packages and their imports, and to put the turns in order.
///
/// # Errors
/// For want of memory alone.
pub fn known_packages(alloc: Global, sources: &[FileElement]) -> Result<KnownPackages, NoMemory>
    requires { length sources.now < 2 ^ 32 }
    ensures { IfOk result (λ known. known ≡ packages_of (map package_text sources.now)) }
{
    let packages = packages_named(alloc, sources)?;
    let packages = packages.as_slice();
    let rounds = rounds(alloc, packages)?;
    let turns = turns(alloc, rounds.as_slice())?;
    in_turn(alloc, packages, turns.items())
}

/// The same packages, of which nothing is to be shared.
///
/// # Errors
/// For want of memory alone.
pub fn packages(alloc: Global, sources: &[FileElement]) -> Result<Table<Known>, NoMemory>
    requires { length sources.now < 2 ^ 32 }
    ensures { IfOk result (λ known. known ≡ packages_of (map package_text sources.now)) }
{
    Ok(known_packages(alloc, sources)?.into_known())
}
