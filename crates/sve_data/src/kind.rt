ghost use Rattle.std.specs.Prelude.{◌≡◌};
ghost use Rattle.sve_data.specs.Declarators.{what_of};

use sve_scope::{SharedType, What};

/// The kind of data that a declaration declares (IEEE 1800-2017, 6.5).
#[derive(Clone, Copy)]
pub enum DataKind {
    /// Nets (6.7).
    Net,
    /// Variables (6.8).
    Variable,
}

/// What a name of data of a type stands for.
pub(crate) fn what_of(kind: DataKind, ty: SharedType) -> What
    ensures { result ≡ what_of kind ty }
{
    match kind {
        DataKind::Net => What::Net(ty),
        DataKind::Variable => What::Variable(ty),
    }
}
