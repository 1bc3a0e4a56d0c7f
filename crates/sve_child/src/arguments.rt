//! The expressions in connections.
ghost use Rattle.std.specs.Prelude.{◌≡◌, option_map};
ghost use Rattle.sve_child.specs.Connecting.{argument_value};

use sve_tree::{Arg, Expr};

/// The expression that an argument connects, where it has one.
#[tactic(auto, unfolding(crate::specs::Connecting::argument_value))]
pub(crate) fn argument_value(argument: &Arg) -> Option<&Expr>
    ensures { option_map (λ e. e.now) result ≡ argument_value argument.now }
{
    match argument {
        Arg::Named { value, .. } => Some(value),
        Arg::Ordered { value } => Some(value),
        Arg::Wildcard { .. } => None,
        Arg::Implicit { .. } => None,
        Arg::Unconnected { .. } => None,
        Arg::Empty => None,
    }
}
