//! Items on the heap.

ghost use Rattle.std.specs.Prelude.{◌≡◌, IfOk, IfErr};
ghost use Rattle.sve_grammar.specs.declared.stop.Stop.TheVariants.{NoMemory};

use std::alloc::Global;
use sve_grammar::Stop;
use sve_tree::Item;

/// The item in a box. It stands in a function of its own so that the functions that call one another keep no room for it.
pub(crate) fn boxed(alloc: Global, item: Item) -> Result<Box<Item>, Stop>
    ensures made { IfOk result (λ b. b.value ≡ item) }
    ensures stop { IfErr result (λ e. e ≡ NoMemory) }
{
    let made = Box::new(alloc, item)?;
    Ok(made)
}
