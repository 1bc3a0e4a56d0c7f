ghost use Rattle.std.specs.Prelude.{◌≡◌, IfOk};
ghost use Rattle.sve_rule.specs.Judged.{judged};
ghost use Rattle.sve_select.specs.Pieces.{pieced};
ghost use Rattle.sve_path.specs.Paths.{piece_after, path_judged, bounds_by, bounds_of, outside_extent, extent_after, path_bits};

use crate::steps::Step;
use std::alloc::Global;
use sve_bytes::NoMemory;
use sve_diag::Code;
use sve_env::Env;
use sve_fault::Fault;
use sve_form::name_token;
use sve_operand::settled;
use sve_rule::{Judged, range, size};
use sve_select::{
    Choice, Extent, Selected, begun, ended, enlarged, extent_bits, member, selected, type_extent,
};
use sve_tree::ScopedName;
use sve_types::Range;

/// What a further select leads to.
fn piece_after<'t, E: Env>(
    alloc: Global,
    name: ScopedName,
    before: Selected<'t>,
    step: Step,
    env: &E,
) -> Result<Selected<'t>, NoMemory>
    ensures { IfOk result (λ r. pieced r ≡ piece_after (E.told env.now) name (pieced before.entry) step) }
{
    let first = name_token(name);
    match step {
        Step::Member(token) => member(alloc, first, name.name, token, env.text(token), before),
        Step::Choice(_, choice) => {
            selected(alloc, first, name.name, env.text(name.name), before, choice)
        }
    }
}

/// The value at the end of selects of a name. It fails for want of memory alone.
#[tactic(auto, unfolding(crate::specs::Paths::path_judged, crate::specs::Paths::pieces_behind))]
pub(crate) fn path<E: Env>(
    alloc: Global,
    name: ScopedName,
    steps: Vec<Step>,
    env: &E,
) -> Result<Judged, NoMemory>
    ensures { IfOk result (λ r. judged r ≡ path_judged (E.told env.now) name steps.items) }
{
    let text = env.text(name.name);
    let mut before = begun(
        alloc,
        name_token(name),
        name.name,
        text,
        env.constant(name)?,
        env.ty(name)?,
    )?;
    'steps: for step in steps {
        before = piece_after(alloc, name, before, step, env)?;
    }
    Ok(ended(before))
}

/// What brackets behind the name of a type say as a dimension.
fn bounds_by(token: u32, opening: u32, choice: Choice) -> Result<Range, Fault>
    ensures { result ≡ bounds_by token opening choice }
{
    match choice {
        Choice::Place(index) => size(opening, Ok(settled(index))),
        Choice::Between(_, left, _, right) => {
            range(opening, Ok(settled(left)), Ok(settled(right)))
        }
        Choice::Upward(..) => Err(Fault::at(token, Code::C01)),
        Choice::Downward(..) => Err(Fault::at(token, Code::C01)),
    }
}

fn bounds_of(token: u32, opening: u32, choice: Result<Choice, Fault>) -> Result<Range, Fault>
    ensures { result ≡ bounds_of token opening choice }
{
    match choice {
        Ok(choice) => bounds_by(token, opening, choice),
        Err(fault) => Err(fault),
    }
}

/// What is no dimension, behind others.
fn outside_extent(token: u32, before: Result<Extent, Fault>) -> Result<Extent, Fault>
    ensures { result ≡ outside_extent token before }
{
    match before {
        Ok(_) => Err(Fault::at(token, Code::C01)),
        Err(fault) => Err(fault.first(Fault::at(token, Code::C01))),
    }
}

/// A type with a further dimension.
fn extent_after<E: Env>(
    name: ScopedName,
    before: Result<Extent, Fault>,
    step: Step,
    env: &E,
) -> Result<Extent, Fault>
    ensures { result ≡ extent_after (E.told env.now) name before step }
{
    let token = name_token(name);
    match step {
        Step::Member(_) => outside_extent(token, before),
        Step::Choice(opening, choice) => enlarged(
            opening,
            before,
            bounds_of(token, opening, choice),
        ),
    }
}

/// The bits of a type by its name with dimensions behind it (20.6.2). It fails for want of memory alone.
#[tactic(auto, unfolding(crate::specs::Paths::path_bits, crate::specs::Paths::extents_behind))]
pub(crate) fn path_bits<E: Env>(
    alloc: Global,
    name: ScopedName,
    steps: Vec<Step>,
    env: &E,
) -> Result<Result<u64, Fault>, NoMemory>
    ensures { IfOk result (λ r. r ≡ path_bits (E.told env.now) name steps.items) }
{
    let text = env.text(name.name);
    let mut before = type_extent(alloc, name.name, text, env.ty(name)?)?;
    'steps: for step in steps {
        before = extent_after(name, before, step, env);
    }
    Ok(extent_bits(before))
}
