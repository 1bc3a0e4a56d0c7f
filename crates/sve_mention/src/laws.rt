//! What holds of the definitions. The clause of each function is a law, and its body does nothing.
ghost use Rattle.std.specs.Prelude.{◌↔◌, ℕ};
ghost use Rattle.std.specs.Bool.{Decides};
ghost use Rattle.std.specs.List.{Contains};
ghost use Rattle.sve_tree.specs.declared.element.Definition.{Definition};
ghost use Rattle.sve_tree.specs.declared.element.Element.{Element};
ghost use Rattle.sve_mention.specs.declared.mention.Mention.TheVariants.{Instance};
ghost use Rattle.sve_mention.specs.Defaults.{LacksDefault};
ghost use Rattle.sve_mention.specs.InElements.{element_mentions, lacks_default};
ghost use Rattle.sve_mention.specs.Instantiations.{ElementInstantiates};

/// An element instantiates what a token names exactly where one of its mentions says so (IEEE 1800-2017, 23.3.2).
pub fn instances_are_mentioned()
    ensures { (element : Element) (definition : ℕ) → ElementInstantiates element definition ↔ Contains (element_mentions element) (Instance definition) }
{}

/// The test whether a module or an interface lacks a default answers yes exactly where one of its parameters has no value (6.20.1).
pub fn lacking_defaults_are_told()
    ensures { (definition : Definition) → Decides (lacks_default definition) (LacksDefault definition) }
{}
