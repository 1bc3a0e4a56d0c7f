//! What holds of the definitions. The clause of each function is a law, and its body does nothing.
ghost use Rattle.std.specs.Prelude.{◌≡◌, not};
ghost use Rattle.std.specs.List.{list_any};
ghost use Rattle.sve_tree.specs.declared.element.Definition.{Definition};
ghost use Rattle.sve_mention.specs.InElements.{lacks_default};
ghost use Rattle.sve_formal.specs.Formals.{formals_of};

/// A module or an interface lacks a default, so that it is no top, exactly where one of its parameters has no value (IEEE 1800-2017,
/// 6.20.1).
pub fn missing_values_are_lacking_defaults()
    ensures { (definition : Definition) → list_any (λ formal. not formal.has_value) (formals_of definition) ≡ lacks_default definition }
{}
