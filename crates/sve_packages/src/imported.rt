//! The rounds of the packages of a design.
ghost use Rattle.std.specs.Prelude.{◌≡◌, ◌<◌, ◌^◌, IfOk, length, map};
ghost use Rattle.sve_package_order.specs.Rounds.{rounds_of};
ghost use Rattle.sve_packages.specs.Packages.{design_package, imports_of};

use crate::design_package::DesignPackage;
use std::alloc::Global;
use sve_bytes::{List, NoMemory};
use sve_imports::imports;
use sve_package_order::{PackageImports, order};

/// What a package imports.
#[tactic(auto, unfolding(crate::specs::Packages::imports_of))]
fn imports_of(alloc: Global, each: &DesignPackage<'_>) -> Result<PackageImports, NoMemory>
    ensures { IfOk result (λ i. i ≡ imports_of (design_package each.now)) }
{
    let imports = List::of(imports(alloc, each.source.element())?);
    Ok(PackageImports {
        name: each.name.copy()?,
        imports,
    })
}

/// What each of these packages imports.
fn all_imports(
    alloc: Global,
    packages: &[DesignPackage<'_>],
) -> Result<Vec<PackageImports>, NoMemory>
    ensures { IfOk result (λ all. all.items ≡ map imports_of (map design_package packages.now)) }
{
    let mut all = Vec::new(alloc);
    'packages: for each in packages {
        all.push(imports_of(alloc, each)?)?;
    }
    Ok(all)
}

/// The rounds of these packages.
///
/// # Errors
/// For want of memory alone.
pub(crate) fn rounds(
    alloc: Global,
    packages: &[DesignPackage<'_>],
) -> Result<Vec<Option<u32>>, NoMemory>
    requires { length packages.now < 2 ^ 32 }
    ensures { IfOk result (λ all. all.items ≡ rounds_of (map imports_of (map design_package packages.now))) }
{
    let imports = all_imports(alloc, packages)?;
    order(alloc, imports.as_slice())
}
