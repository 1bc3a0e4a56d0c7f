//! What a name means in the scopes of a body.
ghost use Rattle.std.specs.Prelude.{◌≡◌, [], option_map};
ghost use Rattle.sve_scope.specs.Lookup.{meaning_of};
ghost use Rattle.sve_named.specs.Scopes.{meaning_in, scope_at};

use sve_bytes::{Name, Step};
use sve_facts::BodyScope;
use sve_scope::{Enclosing, Found, Scope, lookup};

/// The scope at a path from the body.
pub(crate) fn scope_at<'a>(scopes: &'a [BodyScope], steps: &[Step]) -> Option<&'a Scope>
    ensures { option_map (λ s. s.now) result ≡ scope_at scopes.now steps.now }
{
    match scopes
        .iter()
        .find(|scope| scope.path.steps.items() == steps)
    {
        Some(found) => Some(&found.scope),
        None => None,
    }
}

/// What a name means in a scope by itself, where there is one, with nothing around it.
pub(crate) fn meaning_in<'a>(
    scope: Option<&'a Scope>,
    around: &'a Enclosing<Scope>,
    name: &Name,
) -> Found<'a>
    requires { around.now ≡ [] }
    ensures { meaning_of result ≡ meaning_in name.now (option_map (λ s. s.now) scope.entry) }
{
    match scope {
        Some(scope) => lookup(scope, around, name, u32::MAX),
        None => Found::None,
    }
}
