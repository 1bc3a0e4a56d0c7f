//! All that there is to say of a design, in one list.
ghost use Rattle.std.specs.Prelude.{◌≡◌, ◌++◌, IfOk, OnOk};
ghost use Rattle.std.specs.List.{flat_map};
ghost use Rattle.sve_front.specs.Readings.{AreCut};
ghost use Rattle.sve_diagnostics.specs.Diagnostics.{all_diags, gathered, package_diags};

use crate::missing::all_missing;
use crate::placing::{add_all_told, add_notes};
use crate::reading::Readings;
use std::alloc::Global;
use sve_bytes::{List, NoMemory};
use sve_diag::{Diag, Note};
use sve_front::Unit;
use sve_known::Known;
use sve_ordered::ordered;
use sve_survey::{Surveyed, notes_of_instances};
use sve_table::Table;

/// Copies of these diagnostics.
fn copies(alloc: Global, told: &[Diag]) -> Result<Vec<Diag>, NoMemory>
    ensures { IfOk result (λ diags. diags.items ≡ told.now) }
{
    let mut diags = Vec::new(alloc);
    'told: for diag in told {
        diags.push(diag.copy()?)?;
    }
    Ok(diags)
}

/// Adds what there is to say of each package.
#[tactic(auto, using(crate::proofs::Packages::one_more, crate::proofs::Packages::none_left))]
fn add_packages(
    units: &Table<Unit>,
    packages: &Table<Known>,
    diags: &mut Vec<Diag>,
) -> Result<(), NoMemory>
    requires { AreCut units.now }
    ensures { OnOk result (diags.new.items ≡ diags.old.items ++ flat_map (package_diags units.now) packages.now) }
{
    'packages: for place in 0..packages.len() {
        add_notes(units, packages.at(place).facts().notes.items(), diags)?;
    }
    Ok(())
}

/// What there is to say of the texts, of the index and of the packages, these notes of the instances, and those of hierarchical names.
#[tactic(auto, unfolding(crate::specs::Diagnostics::gathered))]
fn gathered(
    alloc: Global,
    read: Readings<'_>,
    notes: &[Note],
    missing: &[Note],
) -> Result<Vec<Diag>, NoMemory>
    requires { AreCut read.units.now }
    ensures { IfOk result (λ diags. diags.items ≡ gathered read.entry.units.now read.entry.texts.now read.entry.index.now read.entry.packages.now notes.now missing.now) }
{
    let mut diags = copies(alloc, read.texts)?;
    add_notes(read.units, read.index, &mut diags)?;
    add_packages(read.units, read.packages, &mut diags)?;
    add_all_told(read.units, notes, &mut diags)?;
    add_notes(read.units, missing, &mut diags)?;
    Ok(diags)
}

/// The same of these instances, in order, each once.
pub(crate) fn all_diags(
    alloc: Global,
    read: Readings<'_>,
    instances: &[Surveyed],
) -> Result<List<Diag>, NoMemory>
    requires { AreCut read.units.now }
    ensures { IfOk result (λ diags. diags ≡ all_diags read.entry.units.now read.entry.texts.now read.entry.index.now read.entry.packages.now instances.now) }
{
    let notes = notes_of_instances(alloc, instances)?;
    let missing = all_missing(alloc, instances)?;
    let all = gathered(alloc, read, notes.as_slice(), missing.as_slice())?;
    ordered(all)
}
