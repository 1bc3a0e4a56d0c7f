//! A law of the elaboration of every specialization: without a generate loop it costs at most four times the tokens of its element.
#![tactic(auto)]

ghost use Rattle.std.specs.Prelude.{◌≡◌, ℕ};
ghost use Rattle.sve_tree.specs.declared.element.Element.{Element};
ghost use Rattle.sve_told.specs.Told.{Told};
ghost use Rattle.sve_spec.specs.declared.spec.Spec.{Spec};
ghost use Rattle.sve_look.specs.Questions.{Reply};
ghost use Rattle.sve_plan.specs.Plan.{Over, run};
ghost use Rattle.sve_elaborate.specs.Bodies.{elaborated};
ghost use Rattle.sve_enough.specs.Enough.{IsEnough, IsTold};

/// Whatever is told, the body of a specialization does not cost more than the fuel, where the element of its definition, if it is told, has
/// no generate loop, and the fuel is at least four times the tokens of that element.
pub fn bodies_within_their_tokens()
    ensures { (spec : Spec) (told : Told Reply) (fuel : ℕ) → ((own : Element) → IsTold told spec own → IsEnough fuel own) → run told fuel 0 (elaborated spec) ≡ Over → ⊥ }
{}
