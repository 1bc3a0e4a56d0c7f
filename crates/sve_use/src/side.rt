ghost use Rattle.std.specs.Prelude.{◌≡◌, OnOk};
ghost use Rattle.std.specs.List.{flat_map, fold};
ghost use Rattle.sve_use.specs.LeftSides.{left_side_uses, selected_uses};

use crate::head::hand_on_left;
use crate::resolver::Resolver;
use crate::walk::names_in_selects;
use sve_bytes::NoMemory;
use sve_tree::{LeftSide, Select};

/// A plain name with selects on the left of an assignment, and then the names in these, are handed on.
///
/// # Errors
/// For want of memory alone.
#[tactic(auto, using(std::proofs::lemmas::Grind::common_steps))]
pub fn names_in_selected<R: Resolver>(
    name: u32,
    selects: &Vec<Select>,
    names: &mut R,
) -> Result<(), NoMemory>
    ensures { OnOk result (names.new ≡ fold R.after names.old (selected_uses name selects.now)) }
{
    hand_on_left(name, selects, names)?;
    names_in_selects(selects, names)
}

/// The names that the left side of an assignment uses, in the order of the text, each with how it is used, are handed on
/// (IEEE 1800-2017, 10.3 and 10.4). It goes over the tree once.
///
/// # Errors
/// For want of memory alone.
#[cycle(left)]
#[tactic(auto, using(crate::proofs::Sides::of_sides, std::proofs::lemmas::Grind::common_steps), unfolding(crate::specs::LeftSides::left_side_uses))]
pub fn names_in_left_side<R: Resolver>(side: &LeftSide, names: &mut R) -> Result<(), NoMemory>
    ensures { OnOk result (names.new ≡ fold R.after names.old (left_side_uses side.now)) }
{
    match side {
        LeftSide::Name { name, selects } => names_in_selected(*name, selects, names),
        LeftSide::Concatenation { concatenation } => {
            names_in_left_sides(concatenation.sides.as_slice(), names)
        }
    }
}

/// Those in left sides.
#[cycle(left)]
#[tactic(auto, using(crate::proofs::Sides::side_step, crate::proofs::Sides::side_end, std::proofs::lemmas::Grind::common_steps))]
fn names_in_left_sides<R: Resolver>(sides: &[LeftSide], names: &mut R) -> Result<(), NoMemory>
    ensures { OnOk result (names.new ≡ fold R.after names.old (flat_map left_side_uses sides.now)) }
{
    'sides: for side in sides {
        names_in_left_side(side, names)?;
    }
    Ok(())
}
