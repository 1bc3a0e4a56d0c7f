ghost use Rattle.std.specs.Prelude.{◌≡◌, ℕ, List, length};
ghost use Rattle.sve_tree.specs.declared.element.Element.{Element};
ghost use Rattle.sve_formal.specs.Formals.{overridable_count};
ghost use Rattle.sve_param.specs.declared.overriding.Override.{Override};
ghost use Rattle.sve_param.specs.Places.{formals_in};
ghost use Rattle.sve_param.specs.Giving.{given_by};

/// Whatever the overrides of an instance are, as many things are given as there are parameters that an instance may override.
pub fn each_parameter_is_given_something()
    ensures { (element : Element) (overrides : List Override) (file : List ℕ) (chunk at : ℕ) → length (given_by element overrides file chunk at).given ≡ overridable_count (formals_in element) }
{}
