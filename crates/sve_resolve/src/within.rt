//! What is known behind the parameters so far.
ghost use Rattle.std.specs.Prelude.{◌≡◌, IfOk, option_map};
ghost use Rattle.std.specs.Result.{result_map_both};
ghost use Rattle.sve_fault.specs.Faults.{argument_of};
ghost use Rattle.sve_resolve.specs.Within.{seen_by, seen_of, type_by, value_by};

use crate::known::{Known, Resolved, resolved_of};
use std::alloc::Global;
use sve_bytes::{Name, NoMemory};
use sve_env::Env;
use sve_fault::{Fault, Fuel, Halted, Said, argument};
use sve_tree::{ArgumentList, ScopedName};
use sve_types::{Ty, Value};

/// What is known around the header, and the parameters so far.
#[derive(Drop)]
pub(crate) struct Within<'a, E> {
    pub(crate) alloc: Global,
    pub(crate) env: &'a E,
    pub(crate) known: &'a Known,
}

/// The parameter of the name at a token.
fn seen_at<'a, E: Env>(within: &Within<'a, E>, token: u32) -> Result<Option<&'a Resolved>, NoMemory>
    ensures { IfOk result (λ r. option_map (λ x. x.now) r ≡ seen_by None (argument_of ((E.told within.now.env.now).text token)) within.now.known.now) }
{
    match argument(within.alloc, within.env.text(token))? {
        None => Ok(None),
        Some(name) => Ok(resolved_of(within.known, &name)),
    }
}

/// The parameter that a name stands for.
fn seen_of<'a, E: Env>(
    within: &Within<'a, E>,
    name: ScopedName,
) -> Result<Option<&'a Resolved>, NoMemory>
    ensures { IfOk result (λ r. option_map (λ x. x.now) r ≡ seen_of (E.told within.now.env.now) within.now.known.now name) }
{
    if name.scope.is_some() {
        return Ok(None);
    }
    seen_at(within, name.name)
}

/// The value of a parameter. What has none is said elsewhere.
fn value_by(
    alloc: Global,
    token: u32,
    resolved: &Resolved,
) -> Result<Result<Value, Fault>, NoMemory>
    ensures { IfOk result (λ r. r ≡ value_by token resolved.now) }
{
    match &resolved.value {
        Some(value) => Ok(Ok(value.copy(alloc)?)),
        None => Ok(Err(Fault {
            token,
            said: Said::Nothing,
        })),
    }
}

/// The type of a parameter. What has none is said elsewhere.
fn type_by(token: u32, resolved: &Resolved) -> Result<&Ty, Fault>
    ensures { result_map_both (λ t. t.now) (λ f. f) result ≡ type_by token resolved.now }
{
    match &resolved.ty {
        Some(ty) => Ok(ty.ty()),
        None => Err(Fault {
            token,
            said: Said::Nothing,
        }),
    }
}

impl<E: Env> Env for Within<'_, E> {
    ghost use Rattle.sve_resolve.specs.Within.{told_within};

    ghost told = { λ s. told_within (E.told s.env.now) s.known.now };

    fn file(&self) -> &Name {
        self.env.file()
    }

    fn chunk(&self) -> u32 {
        self.env.chunk()
    }

    fn text(&self, token: u32) -> &[u8] {
        self.env.text(token)
    }

    fn declared_before(&self, token: u32) -> Result<bool, NoMemory> {
        match seen_at(self, token)? {
            None => self.env.declared_before(token),
            Some(_) => Ok(true),
        }
    }

    fn constant(&self, name: ScopedName) -> Result<Result<Value, Fault>, NoMemory> {
        match seen_of(self, name)? {
            None => self.env.constant(name),
            Some(resolved) => value_by(self.alloc, name.name, resolved),
        }
    }

    fn is_type(&self, name: ScopedName) -> bool {
        self.env.is_type(name)
    }

    fn ty(&self, name: ScopedName) -> Result<Result<&Ty, Fault>, NoMemory> {
        match seen_of(self, name)? {
            None => self.env.ty(name),
            Some(resolved) => Ok(type_by(name.name, resolved)),
        }
    }

    fn call(
        &self,
        name: ScopedName,
        arguments: &ArgumentList,
        fuel: &mut Fuel,
    ) -> Result<Result<Value, Fault>, Halted> {
        self.env.call(name, arguments, fuel)
    }
}
