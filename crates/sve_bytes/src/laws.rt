//! What holds of the definitions. The clause of each function is a law, and its body does nothing.
ghost use Rattle.sve_bytes.specs.TreeOrder.{TreesAreOrdered};

/// The order of trees of numbers is total, and two trees are equal in it exactly where they are one.
pub fn trees_are_ordered()
    ensures { TreesAreOrdered }
{}
