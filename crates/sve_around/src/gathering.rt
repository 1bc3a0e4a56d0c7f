//! The uses of names that declare nets.
ghost use Rattle.std.specs.Prelude.{◌≡◌, ◌∷◌, ◌++◌, IfOk};
ghost use Rattle.std.specs.List.{flat_map};
ghost use Rattle.sve_scope.specs.Lookup.{meaning_of};
ghost use Rattle.sve_use.specs.Uses.{uses};
ghost use Rattle.sve_around.specs.Nets.{net_named, net_of, net_of_use, net_unless};

use std::alloc::Global;
use std::mem;
use sve_bytes::{List, Name, NoMemory};
use sve_connect::Net;
use sve_known::name_at;
use sve_scope::{Enclosing, Found, Scope, lookup};
use sve_tree::{Expr, Postfix, ScopedName, Select, Word};
use sve_use::{Resolver, names_in};

/// The uses so far, where names stand for what these scopes say.
#[derive(Drop)]
pub(crate) struct Gathering<'a> {
    pub(crate) alloc: Global,
    pub(crate) words: &'a [Word],
    pub(crate) scope: &'a Scope,
    pub(crate) around: &'a Enclosing<Scope>,
    pub(crate) nets: List<Net>,
}

/// Nets, and behind them the use of a name, where lookup finds nothing.
fn net_unless(
    nets: List<Net>,
    found: Found<'_>,
    name: &Name,
    token: u32,
) -> Result<List<Net>, NoMemory>
    ensures { IfOk result (λ l. l ≡ nets ++ net_unless (meaning_of found.entry) name.now token) }
{
    match found {
        Found::Local(_) => Ok(nets),
        Found::Imported(_, _, _) => Ok(nets),
        Found::Two(_, _) => Ok(nets),
        Found::None => {
            let mut nets = nets.into_vec();
            nets.push(Net {
                name: name.copy()?,
                token,
            })?;
            Ok(List::of(nets))
        }
    }
}

/// Nets, and behind them the use of the name at a token, where it stands for nothing.
fn net_named(
    nets: List<Net>,
    words: &[Word],
    scope: &Scope,
    around: &Enclosing<Scope>,
    token: u32,
) -> Result<List<Net>, NoMemory>
    ensures { IfOk result (λ l. l ≡ nets ++ net_named words.now (scope.now ∷ around.now) token) }
{
    match name_at(words, token) {
        Some(name) => net_unless(nets, lookup(scope, around, name, token), name, token),
        None => Ok(nets),
    }
}

/// Nets, and behind them the use of a name by itself. A name of a package declares none.
fn net_of(
    nets: List<Net>,
    words: &[Word],
    scope: &Scope,
    around: &Enclosing<Scope>,
    name: ScopedName,
) -> Result<List<Net>, NoMemory>
    ensures { IfOk result (λ l. l ≡ nets ++ net_of words.now (scope.now ∷ around.now) name) }
{
    match name.scope {
        Some(_) => Ok(nets),
        None => net_named(nets, words, scope, around, name.name),
    }
}

impl Resolver for Gathering<'_> {
    ghost use Rattle.sve_around.specs.Nets.{gathered};

    ghost after = { gathered };

    fn named(&mut self, name: ScopedName) -> Result<(), NoMemory> {
        let nets = mem::replace(&mut self.nets, List::of(Vec::new(self.alloc)));
        self.nets = net_of(nets, self.words, self.scope, self.around, name)?;
        Ok(())
    }

    fn called(&mut self, _name: ScopedName) -> Result<(), NoMemory> {
        Ok(())
    }

    fn dotted(&mut self, _name: u32, _postfixes: &[Postfix]) -> Result<(), NoMemory> {
        Ok(())
    }

    fn selected(&mut self, _name: u32, _selects: &[Select]) -> Result<(), NoMemory> {
        Ok(())
    }
}

/// Nets, and behind them the uses of names in an expression that declare nets (IEEE 1800-2017, 6.10): of each plain name that stands
/// for nothing, whatever is applied to it, unless it is called or has members.
#[tactic(auto, using(crate::proofs::Gathered::gathered_all))]
pub(crate) fn gather(
    alloc: Global,
    words: &[Word],
    scope: &Scope,
    around: &Enclosing<Scope>,
    nets: List<Net>,
    expr: &Expr,
) -> Result<List<Net>, NoMemory>
    ensures { IfOk result (λ l. l ≡ nets ++ flat_map (net_of_use words.now (scope.now ∷ around.now)) (uses expr.now)) }
{
    let mut gathering = Gathering {
        alloc,
        words,
        scope,
        around,
        nets,
    };
    names_in(expr, &mut gathering)?;
    let Gathering {
        alloc: _,
        words: _,
        scope: _,
        around: _,
        nets,
    } = gathering;
    Ok(nets)
}
