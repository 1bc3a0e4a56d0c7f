ghost use Rattle.std.specs.Prelude.{◌≡◌};
ghost use Rattle.sve_genvar.specs.Genvar.{integer_type};

use crate::bound::InLoop;
use crate::stepping::{after_step, goes_on, start};
use std::alloc::Global;
use sve_bytes::List;
use sve_env::Env;
use sve_fault::{Fault, Fuel, Halted};
use sve_generate::LoopExpressions;
use sve_tree::{Expr, GenvarStep};
use sve_types::{Atom, Base, Ty};

/// The type of a genvar, `integer` (IEEE 1800-2017, 27.4). It takes no memory.
pub fn integer_type(alloc: Global) -> Ty
    ensures { result ≡ integer_type }
{
    Ty {
        base: Base::Atom(Atom::Integer, true),
        packed: List::of(Vec::new(alloc)),
        unpacked: List::of(Vec::new(alloc)),
    }
}

/// A generate loop, with what is known where it stands: its three expressions as they are evaluated.
#[derive(Drop)]
pub struct GenerateLoop<'a, E> {
    /// The allocator.
    pub alloc: Global,
    /// What is known where the loop stands.
    pub env: &'a E,
    /// The name of its genvar.
    pub genvar: &'a [u8],
    /// The first value.
    pub start: &'a Expr,
    /// The condition.
    pub condition: &'a Expr,
    /// The step.
    pub step: &'a GenvarStep,
    /// The type `integer`.
    pub integer: &'a Ty,

    ghost is_integer: { integer.now ≡ integer_type },
}

impl<'a, E: Env> LoopExpressions for GenerateLoop<'a, E> {
    ghost use Rattle.sve_genvar.specs.Genvar.{with_genvar};
    ghost use Rattle.sve_genvar.specs.Steps.{after_step, continued, started};

    ghost starts = { λ l. started (E.told l.env.now) l.start.now };

    ghost goes = { λ l value. continued (with_genvar l.genvar.now value (E.told l.env.now)) l.condition.now };

    ghost steps = { λ l value. after_step (with_genvar l.genvar.now value (E.told l.env.now)) l.genvar.now value l.step.now };

    fn start(&self, fuel: &mut Fuel) -> Result<Result<Option<i32>, Fault>, Halted> {
        start(self.alloc, self.start, self.env, fuel)
    }

    fn condition(&self, value: i32, fuel: &mut Fuel) -> Result<Result<bool, Fault>, Halted> {
        let env = InLoop {
            env: self.env,
            genvar: self.genvar,
            value,
            integer: self.integer,
        };
        goes_on(self.alloc, self.condition, &env, fuel)
    }

    fn step(&self, value: i32, fuel: &mut Fuel) -> Result<Result<Option<i32>, Fault>, Halted> {
        let env = InLoop {
            env: self.env,
            genvar: self.genvar,
            value,
            integer: self.integer,
        };
        after_step(self.alloc, self.genvar, value, self.step, &env, fuel)
    }
}
