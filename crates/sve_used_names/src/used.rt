//! Names that are used where nothing is counted.
ghost use Rattle.std.specs.Prelude.{◌≡◌, ◌++◌, IfOk};
ghost use Rattle.std.specs.List.{fold};
ghost use Rattle.sve_use.specs.LeftSides.{left_side_uses};
ghost use Rattle.sve_use.specs.Uses.{uses, uses_of_arguments};
ghost use Rattle.sve_simple_use.specs.Simple.{event_uses};
ghost use Rattle.sve_used.specs.Used.{name_used};

use std::alloc::Global;
use sve_bytes::NoMemory;
use sve_contents::Contents;
use sve_local::Within;
use sve_scoped::Text;
use sve_simple_use::names_in_events;
use sve_tree::{ArgumentList, EventControl, Expr, LeftSide, NetAssignment};
use sve_use::{names_in_arguments, names_in_left_side};
use sve_used::names_used;

/// The scope behind the names that the left side of an assignment uses.
#[tactic(auto, using(crate::proofs::Folds::all_uses))]
fn left_side_used(
    alloc: Global,
    text: Text<'_>,
    contents: Contents,
    side: &LeftSide,
) -> Result<Contents, NoMemory>
    ensures { IfOk result (λ c. c ≡ fold (name_used text.entry.packages.now text.entry.words.now) contents (left_side_uses side.now)) }
{
    let mut within = Within {
        alloc,
        text,
        contents,
    };
    names_in_left_side(side, &mut within)?;
    let Within {
        alloc: _,
        text: _,
        contents,
    } = within;
    Ok(contents)
}

/// The scope behind the names that the two sides of an assignment use.
fn sides_used(
    alloc: Global,
    text: Text<'_>,
    contents: Contents,
    left: &LeftSide,
    value: &Expr,
) -> Result<Contents, NoMemory>
    ensures { IfOk result (λ c. c ≡ fold (name_used text.entry.packages.now text.entry.words.now) contents (left_side_uses left.now ++ uses value.now)) }
{
    let contents = left_side_used(alloc, text, contents, left)?;
    names_used(alloc, text, contents, value)
}

/// The scope behind the names that an assignment to nets uses, in the order of the text: those of its left side, and those of its value
/// (IEEE 1800-2017, 10.3.2).
///
/// # Errors
/// For want of memory alone.
pub fn assignment_used(
    alloc: Global,
    text: Text<'_>,
    contents: Contents,
    assignment: &NetAssignment,
) -> Result<Contents, NoMemory>
    ensures { IfOk result (λ c. c ≡ fold (name_used text.entry.packages.now text.entry.words.now) contents (left_side_uses assignment.now.left ++ uses assignment.now.value.value)) }
{
    sides_used(alloc, text, contents, &assignment.left, &assignment.value)
}

/// The scope behind the names that the events of a procedure use, in the order of the text (IEEE 1800-2017, 9.4.2).
///
/// # Errors
/// For want of memory alone.
#[tactic(auto, using(crate::proofs::Folds::all_uses))]
pub fn events_used(
    alloc: Global,
    text: Text<'_>,
    contents: Contents,
    control: &EventControl,
) -> Result<Contents, NoMemory>
    ensures { IfOk result (λ c. c ≡ fold (name_used text.entry.packages.now text.entry.words.now) contents (event_uses control.now)) }
{
    let mut within = Within {
        alloc,
        text,
        contents,
    };
    names_in_events(control, &mut within)?;
    let Within {
        alloc: _,
        text: _,
        contents,
    } = within;
    Ok(contents)
}

/// The scope behind the names that a list of arguments or of connections uses, in the order of the text (IEEE 1800-2017, 13.5 and
/// 23.3.2).
///
/// # Errors
/// For want of memory alone.
#[tactic(auto, using(crate::proofs::Folds::all_uses))]
pub fn arguments_used(
    alloc: Global,
    text: Text<'_>,
    contents: Contents,
    list: &ArgumentList,
) -> Result<Contents, NoMemory>
    ensures { IfOk result (λ c. c ≡ fold (name_used text.entry.packages.now text.entry.words.now) contents (uses_of_arguments list.now)) }
{
    let mut within = Within {
        alloc,
        text,
        contents,
    };
    names_in_arguments(list, &mut within)?;
    let Within {
        alloc: _,
        text: _,
        contents,
    } = within;
    Ok(contents)
}
