//! What holds of the elaboration of every body. The clause of each function is a law, and its body does nothing.
ghost use Rattle.std.specs.Prelude.{◌≡◌, ◌≤◌, ◌*◌, ℕ, List};
ghost use Rattle.sve_tree.specs.declared.header.Header.{Header};
ghost use Rattle.sve_tree.specs.declared.item.Item.{Item};
ghost use Rattle.sve_told.specs.Told.{Told};
ghost use Rattle.sve_look.specs.Questions.{Reply};
ghost use Rattle.sve_plan.specs.Plan.{Over, run};
ghost use Rattle.sve_plan.specs.Laws.{AskedDecide, CostIsExact, LessIsOverOrSame, SettledAlike};
ghost use Rattle.sve_body.specs.Steps.{Steps};
ghost use Rattle.sve_body.specs.Body.{body};
ghost use Rattle.sve_body.specs.Budget.{IsModestBody, body_tokens};

/// A body that is done with a cost is done alike with every fuel from that cost on, and costs too much for every fuel below it.
#[tactic(auto, using(sve_plan::proofs::Runs::cost_is_exact))]
pub fn bodies_cost_exactly<S>()
    ensures { (steps : Steps S) (header : Header) (items : List Item) (s : S) → CostIsExact (body steps header items s) }
{}

/// With less fuel a body costs too much, or comes to what it comes to with more.
#[tactic(auto, using(sve_plan::proofs::Runs::less_is_over_or_same))]
pub fn bodies_with_less_fuel<S>()
    ensures { (steps : Steps S) (header : Header) (items : List Item) (s : S) → LessIsOverOrSame (body steps header items s) }
{}

/// A body that is done, or costs too much, comes to the same over whatever else is told, and asks the same questions.
pub fn bodies_settle_alike<S>()
    ensures { (steps : Steps S) (header : Header) (items : List Item) (s : S) → SettledAlike (body steps header items s) }
{}

/// What is told of the questions that a body asks decides what it comes to and what it asks.
pub fn bodies_by_what_they_ask<S>()
    ensures { (steps : Steps S) (header : Header) (items : List Item) (s : S) → AskedDecide (body steps header items s) }
{}

/// A body without a generate loop does not cost more than four times its tokens, where evaluating costs at most three for each token
/// of what is evaluated.
pub fn bodies_within_their_tokens<S>()
    ensures { (steps : Steps S) (header : Header) (items : List Item) (s : S) → IsModestBody steps header items → (told : Told Reply) (fuel : ℕ) → 4 * body_tokens header items ≤ fuel → run told fuel 0 (body steps header items s) ≡ Over → ⊥ }
{}
