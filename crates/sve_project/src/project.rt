ghost use Rattle.std.specs.Prelude.{◌≡◌, IfOk, option_map};
ghost use Rattle.std.specs.Arc.{arc_value};
ghost use Rattle.std.specs.List.{flat_map};
ghost use Rattle.sve_table.specs.Tables.{item_of};
ghost use Rattle.sve_known.specs.Packages.{package_name};
ghost use Rattle.sve_front.specs.Diagnostics.{unit_diags};
ghost use Rattle.sve_front.specs.Elements.{AreElementsOf};
ghost use Rattle.sve_front.specs.Places.{token_place_in};
ghost use Rattle.sve_front.specs.Readings.{AreCut, AreUnits};
ghost use Rattle.sve_front.specs.Units.{unit_names};
ghost use Rattle.sve_packages.specs.Packages.{found_of};
ghost use Rattle.sve_project.specs.Projects.{IsProjectOf, known_in, net_in, tree_in, unit_in};

use crate::lookups::tree_at;
use crate::reading::packages_in;
use std::alloc::Global;
use std::marker::Model;
use std::sync::Arc;
use sve_bytes::{Name, NetType, NoMemory};
use sve_diag::{Diag, Place};
use sve_facts::Facts;
use sve_front::{Reading, Unit, net_type_at, read_units, token_place};
use sve_index::{FileElement, Index, index_of};
use sve_known::Known;
use sve_packages::KnownPackages;
use sve_table::Table;
use sve_text::Files;
use sve_tree::Element;

/// The units of a revision, what there is to say of their texts, the index of their elements, and the packages that the index names.
/// A clause sees all but the packages, which follow from the units and the index.
#[derive(Drop)]
pub struct Project {
    units: Table<Unit>,
    diags: Vec<Diag>,
    index: Arc<Index>,
    packages: KnownPackages,
}

impl Model for Project {
    ghost use Rattle.std.specs.Prelude.{◌≡◌};
    ghost use Rattle.std.specs.Arc.{arc_value};
    ghost use Rattle.sve_project.specs.Projects.{IsWhole, ProjectValue, project_code};

    ghost Value = { ProjectValue };

    ghost coded = { project_code };

    ghost view = { λ p. record { units = p.units; diags = p.diags.items; index = arc_value p.index } };

    ghost invariant = { λ p. IsWhole p.units (arc_value p.index) p.packages };
}

/// The project of units that were read, whose elements are these, and what there is to say of their texts.
#[tactic(auto, using(crate::proofs::Cuts::are_cut))]
fn project_of(
    alloc: Global,
    files: &Files,
    units: Table<Unit>,
    elements: &[FileElement],
    diags: Vec<Diag>,
) -> Result<Project, NoMemory>
    requires units { AreUnits files.now.rows units }
    requires elements { AreElementsOf files.now.rows (unit_names files.now.rows) elements.now }
    requires diags { diags.items ≡ flat_map (unit_diags files.now.rows) (unit_names files.now.rows) }
    ensures { IfOk result (λ project. IsProjectOf files.now.rows project) }
{
    let _ = files;
    let index = index_of(alloc, elements)?;
    let packages = packages_in(alloc, &units, &index)?;
    Ok(Project {
        units,
        diags,
        index: Arc::new(alloc, index)?,
        packages,
    })
}

impl Project {
    /// Reads all units of a revision, each once, makes the index of their elements, and finds what each of its packages declares
    /// (IEEE 1800-2017, 3.12.1, 3.13 and clause 26).
    ///
    /// # Errors
    /// For want of memory alone.
    pub fn read(alloc: Global, files: &Files) -> Result<Project, NoMemory>
        ensures { IfOk result (λ project. IsProjectOf files.now.rows project) }
    {
        let Reading {
            units,
            elements,
            diags,
        } = read_units(alloc, files)?;
        project_of(alloc, files, units, &elements, diags)
    }

    /// The unit of this file, where it is one. It takes no memory.
    pub fn unit(&self, file: &Name) -> Option<&Unit>
        ensures { option_map (λ unit. unit.now) result ≡ unit_in self.now file.now }
    {
        self.units.get(file)
    }

    /// The units, in file order, each cut into its chunks (3.12.1). It takes no memory.
    pub fn units(&self) -> &Table<Unit>
        ensures value { result.now ≡ self.now.units }
        ensures cut { AreCut result.now }
    {
        &self.units
    }

    /// What there is to say of the texts of its units, in file order: of their expansions, and of the chunks that the grammar refuses
    /// (clause 22 and Annex A). It takes no memory.
    pub fn unit_diags(&self) -> &[Diag]
        ensures { result.now ≡ self.now.diags }
    {
        self.diags.as_slice()
    }

    /// Where modules, interfaces and packages are defined, and the tops (3.13 and 23.3.1). It takes no memory.
    pub fn index(&self) -> &Index
        ensures { result.now ≡ self.now.index }
    {
        &self.index
    }

    /// The same, to be shared. It takes no memory.
    pub(crate) fn shared_index(&self) -> &Arc<Index>
        ensures { arc_value result.now ≡ self.now.index }
    {
        &self.index
    }

    /// The packages that the index names, each with what it declares (clause 26). It takes no memory.
    #[tactic(auto, unfolding(crate::specs::Projects::known_in))]
    pub fn packages(&self) -> &Table<Known>
        ensures { result.now ≡ known_in self.now }
    {
        self.packages.known()
    }

    /// The package of this name, where the index names it. It takes no memory.
    #[tactic(auto, unfolding(crate::specs::Projects::known_in))]
    pub fn package(&self, name: &Name) -> Option<&Known>
        ensures { option_map (λ known. known.now) result ≡ item_of package_name name.now (known_in self.now) }
    {
        self.packages.known().get(name)
    }

    /// What is found of the package of this name, to be shared. It takes no memory.
    #[tactic(auto, unfolding(crate::specs::Projects::known_in))]
    pub(crate) fn shared_facts(&self, name: &Name) -> Option<&Arc<Facts>>
        ensures { option_map (λ facts. arc_value facts.now) result ≡ option_map found_of (item_of package_name name.now (known_in self.now)) }
    {
        self.packages.facts(name)
    }

    /// The tree of a chunk of this file, counted from 0; none where the file is no unit, has no such chunk, or the grammar refuses
    /// it. It takes no memory.
    #[tactic(auto, unfolding(crate::specs::Projects::tree_in))]
    pub fn tree(&self, file: &Name, chunk: u32) -> Option<&Arc<Element>>
        ensures { option_map (λ tree. arc_value tree.now) result ≡ tree_in self.now file.now chunk }
    {
        tree_at(&self.units, file, chunk)
    }

    /// The net type that is in force at a token of a chunk of this file, both counted from 0 (22.8); `wire` where the file is no
    /// unit. It takes no memory.
    #[tactic(auto, unfolding(crate::specs::Projects::net_in))]
    pub fn net_type(&self, file: &Name, chunk: u32, token: u32) -> NetType
        ensures { result ≡ net_in self.now file.now chunk token }
    {
        net_type_at(&self.units, file, chunk, token)
    }

    /// Where a token of a chunk of this file stands, both counted from 0; behind the last token it is the end of the chunk, and a
    /// file that is no unit has no places.
    ///
    /// # Errors
    /// For want of memory alone.
    pub fn token_place(
        &self,
        file: &Name,
        chunk: u32,
        token: u32,
    ) -> Result<Option<Place>, NoMemory>
        ensures { IfOk result (λ place. place ≡ token_place_in self.now.units file.now chunk token) }
    {
        token_place(&self.units, file, chunk, token)
    }
}
