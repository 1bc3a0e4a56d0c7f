ghost use Rattle.std.specs.Prelude.{◌≡◌, IfOk};
ghost use Rattle.sve_path.specs.Named.{state_of};
ghost use Rattle.sve_measure.specs.Constants.{act_seen, applied_after};

use std::alloc::Global;
use sve_bytes::NoMemory;
use sve_env::Env;
use sve_fault::Fault;
use sve_path::{Made, Step, called, cast_after, stepped};
use sve_rule::Judged;
use sve_tree::ScopedName;
use sve_types::Value;

/// What is applied to a name, by itself.
#[derive(Drop)]
pub(crate) enum Act {
    /// A select.
    Select(Step),
    /// A call, by its value.
    Call(Result<Value, Fault>),
    /// A cast, by what is cast.
    Cast(Judged),
    /// A pattern, which is no constant.
    Pattern(Judged),
}

/// What was made of a name, with one thing more that is applied to it. It fails for want of memory alone.
#[tactic(auto, unfolding(crate::specs::Constants::applied_after))]
pub(crate) fn acted<E: Env>(
    alloc: Global,
    name: ScopedName,
    before: Made,
    act: Act,
    env: &E,
) -> Result<Made, NoMemory>
    ensures { IfOk result (λ r. state_of r ≡ applied_after (E.told env.now) name (state_of before) (act_seen act)) }
{
    match act {
        Act::Select(step) => stepped(alloc, name, before, step),
        Act::Call(value) => called(alloc, name, before, value, env),
        Act::Cast(value) => cast_after(alloc, name, before, value, env),
        Act::Pattern(value) => Ok(Made::Whole(value)),
    }
}
