//! The hierarchical names of a body.
ghost use Rattle.std.specs.Prelude.{◌≡◌, ◌++◌, map, IfOk, OnOk};
ghost use Rattle.sve_elaboration.specs.Hierarchical.{use_in, uses_kept};

use crate::elaboration::Elaboration;
use std::alloc::Global;
use sve_bytes::{NoMemory, Path};
use sve_contents::DottedName;
use sve_facts::HierarchicalUse;

/// A name that is used in the scope of this path.
fn use_in(alloc: Global, path: &Path, name: &DottedName) -> Result<HierarchicalUse, NoMemory>
    ensures { IfOk result (λ u. u ≡ use_in path.now name.now) }
{
    Ok(HierarchicalUse {
        scope: path.copy(alloc)?,
        name: name.name.copy(alloc)?,
        token: name.token,
    })
}

/// Adds names that are used in the scope of this path.
fn add_uses(
    alloc: Global,
    path: &Path,
    names: &[DottedName],
    uses: &mut Vec<HierarchicalUse>,
) -> Result<(), NoMemory>
    ensures { OnOk result (uses.new.items ≡ uses.old.items ++ map (use_in path.now) names.now) }
{
    'names: for name in names {
        uses.push(use_in(alloc, path, name)?)?;
    }
    Ok(())
}

impl<'a> Elaboration<'a> {
    /// Keeps the hierarchical names of the innermost scope, before another scope is that.
    pub(crate) fn keep_uses(&mut self) -> Result<(), NoMemory>
        ensures { OnOk result (self.new ≡ uses_kept self.old) }
    {
        let names = self.nested.contents.take_dotted(self.alloc);
        let path = &self.nested.blocks.inner.path;
        add_uses(self.alloc, path, names.items(), &mut self.hierarchical)
    }
}
