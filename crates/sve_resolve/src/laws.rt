//! What holds of the definitions. The clause of each function is a law, and its body does nothing.
ghost use Rattle.sve_resolve.specs.Taken.{ListsHaveAll, TakeInOrder, TakeNoOthers};

/// `resolve` takes the overrides of a header in their order (IEEE 1800-2017, 23.10): each parameter that an instance may override takes
/// the one at the place of as many as can be overridden before it, a local one takes none.
pub fn parameters_take_overrides_in_order()
    ensures { TakeInOrder }
{}

/// `resolve` takes as many overrides as parameters of the list of the header can be overridden: what is given at other places changes
/// neither what is found nor what is counted.
pub fn no_other_overrides_are_taken()
    ensures { TakeNoOthers }
{}

/// Where a header has a list of parameters, those of it are all that an instance may override (IEEE 1800-2017, 6.20.1): as many
/// overrides are taken as `overridable_count` counts over the whole definition.
pub fn lists_have_all_that_can_be_overridden()
    ensures { ListsHaveAll }
{}
