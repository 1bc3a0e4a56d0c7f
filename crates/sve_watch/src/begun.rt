//! A pass as it was when a call began. It exists for contracts alone.
use std::marker::Brand;

/// The pass that a call was handed, as it was then. No value of such a type is made: whoever makes the call names the member from
/// what it passes.
pub(crate) trait Begun {
    ghost use Rattle.sve_board.specs.Values.{PassValue};

    // The pass.
    ghost pass: { PassValue };
}

impl Begun for Brand {
    ghost use Rattle.std.specs.Prelude.{[]};

    ghost pass = { record { table = record { words = 0; slots = 0; views_name = 0; atom = 0; block = 0; offset = 0; slot_names = [] }; number = 0; seen = []; mine = []; looks = []; raises = 0 } };
}
