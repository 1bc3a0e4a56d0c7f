ghost use Rattle.std.specs.Prelude.{◌≡◌};
ghost use Rattle.sve_formal.specs.Written.{is_written};

use sve_tree::DeclaredType;

/// Whether anything is written of the type of a declared name: a type, or at least a sign or a range (IEEE 1800-2017, A.2.2.1).
pub fn is_written(data_type: &DeclaredType) -> bool
    ensures { result ≡ is_written data_type.now }
{
    match data_type {
        DeclaredType::Explicit { .. } => true,
        DeclaredType::Implicit { sign, dimensions } => sign.is_some() || !dimensions.is_empty(),
    }
}
