ghost use Rattle.std.specs.Prelude.{◌≡◌};
ghost use Rattle.sve_index.specs.Designs.{definition_token, may_be_top, package_token};

use sve_mention::lacks_default;
use sve_tree::Design;

/// The number of the name of a module or an interface.
pub(crate) fn definition_token(design: &Option<Design>) -> Option<u32>
    ensures { result ≡ definition_token design.now }
{
    let Some(design) = design else {
        return None;
    };
    match design {
        Design::Module { definition, .. } => Some(definition.header.name),
        Design::Interface { definition, .. } => Some(definition.header.name),
        Design::Package { .. } => None,
    }
}

/// The number of the name of a package.
pub(crate) fn package_token(design: &Option<Design>) -> Option<u32>
    ensures { result ≡ package_token design.now }
{
    let Some(design) = design else {
        return None;
    };
    match design {
        Design::Module { .. } | Design::Interface { .. } => None,
        Design::Package { unit } => Some(unit.name),
    }
}

/// Whether a design is a module that can stand without an instance: each of its parameters has a value of its own.
pub(crate) fn may_be_top(design: &Option<Design>) -> bool
    ensures { result ≡ may_be_top design.now }
{
    let Some(design) = design else {
        return false;
    };
    match design {
        Design::Module { definition, .. } => !lacks_default(definition),
        Design::Interface { .. } => false,
        Design::Package { .. } => false,
    }
}
