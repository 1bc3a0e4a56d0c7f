ghost use Rattle.std.specs.Prelude.{◌≡◌, IfOk};
ghost use Rattle.std.specs.List.{flat_map};
ghost use Rattle.sve_use.specs.LeftSides.{left_side_uses};
ghost use Rattle.sve_body.specs.Items.{plain_tokens};

use std::alloc::Global;
use std::marker::Model;
use sve_bytes::NoMemory;
use sve_tree::{LeftSide, Postfix, ScopedName, Select};
use sve_use::{Resolver, names_in_left_side};

/// The plain names so far.
#[derive(Drop)]
struct PlainNames {
    tokens: Vec<u32>,
}

impl Model for PlainNames {
    ghost use Rattle.std.specs.Prelude.{ℕ, List};

    ghost Value = { List ℕ };

    ghost view = { λ names. names.tokens.items };
}

impl Resolver for PlainNames {
    ghost use Rattle.sve_body_item.specs.Plain.{after};

    ghost after = { λ tokens name. after tokens name };

    fn named(&mut self, name: ScopedName) -> Result<(), NoMemory> {
        match name.scope {
            Some(_) => {}
            None => self.tokens.push(name.name)?,
        }
        Ok(())
    }

    fn called(&mut self, _name: ScopedName) -> Result<(), NoMemory> {
        Ok(())
    }

    fn dotted(&mut self, _name: u32, _postfixes: &[Postfix]) -> Result<(), NoMemory> {
        Ok(())
    }

    fn selected(&mut self, _name: u32, _selects: &[Select]) -> Result<(), NoMemory> {
        Ok(())
    }
}

/// The plain names in the left side of an assignment, in the order of the text: those that make nets where nothing declares them
/// (IEEE 1800-2017, 6.10).
pub(crate) fn plain_names(alloc: Global, side: &LeftSide) -> Result<Vec<u32>, NoMemory>
    ensures { IfOk result (λ tokens. tokens.items ≡ flat_map plain_tokens (left_side_uses side.now)) }
{
    let mut names = PlainNames {
        tokens: Vec::new(alloc),
    };
    names_in_left_side(side, &mut names)?;
    Ok(names.tokens)
}
