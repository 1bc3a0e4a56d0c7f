//! What is found of the packages of a design, one turn after another.
ghost use Rattle.std.specs.Prelude.{◌≡◌, [], IfOk, map};
ghost use Rattle.std.specs.List.{fold};
ghost use Rattle.sve_packages.specs.Packages.{design_package, facts_of, with_package, with_turn};

use crate::design_package::DesignPackage;
use crate::sharing::KnownPackages;
use crate::turn::Turn;
use std::alloc::Global;
use std::sync::Arc;
use sve_bytes::NoMemory;
use sve_facts::Facts;
use sve_function::Constants;
use sve_known::Known;
use sve_package::{cyclic_package, package};
use sve_table::Table;

/// What is found of a package over those that are known, where it has a round, or where it has none.
#[tactic(auto, unfolding(crate::specs::Packages::facts_of))]
fn facts_of(
    alloc: Global,
    known: &Table<Known>,
    round: Option<u32>,
    each: &DesignPackage<'_>,
) -> Result<Facts, NoMemory>
    ensures { IfOk result (λ f. f ≡ facts_of known.now round (design_package each.now)) }
{
    let source = each.source;
    let element = source.element();
    match round {
        Some(_) => package(
            alloc,
            &Constants,
            known,
            &source.file,
            source.chunk,
            element,
        ),
        None => cyclic_package(alloc, &source.file, source.chunk, element),
    }
}

/// The packages that are known, with one more.
fn with_package(
    alloc: Global,
    known: KnownPackages,
    round: Option<u32>,
    each: &DesignPackage<'_>,
) -> Result<KnownPackages, NoMemory>
    ensures { IfOk result (λ all. all ≡ with_package known round (design_package each.now)) }
{
    let facts = Arc::new(alloc, facts_of(alloc, known.known(), round, each)?)?;
    known.with_package(alloc, each.name, facts)
}

/// The packages that are known, with the one that has this turn, where there is one.
fn with_turn(
    alloc: Global,
    known: KnownPackages,
    packages: &[DesignPackage<'_>],
    turn: &Turn,
) -> Result<KnownPackages, NoMemory>
    ensures { IfOk result (λ all. all ≡ with_turn (map design_package packages.now) known turn.now) }
{
    match packages.get(turn.place) {
        Some(each) => with_package(alloc, known, turn.round, each),
        None => Ok(known),
    }
}

/// The packages that have these turns, each over those in front of it.
///
/// # Errors
/// For want of memory alone.
pub(crate) fn in_turn(
    alloc: Global,
    packages: &[DesignPackage<'_>],
    turns: &[Turn],
) -> Result<KnownPackages, NoMemory>
    ensures { IfOk result (λ known. known ≡ fold (with_turn (map design_package packages.now)) [] turns.now) }
{
    let mut known = KnownPackages::new(alloc);
    'turns: for turn in turns {
        known = with_turn(alloc, known, packages, turn)?;
    }
    Ok(known)
}
