//! What plans come to where every question has an answer, and where all fuel is there. The clause of each function is a law, and its body
//! does nothing.
#![tactic(auto)]

ghost use Rattle.std.specs.Prelude.{Bool, IsTrue};
ghost use Rattle.sve_plan.specs.Plan.{Plan, AsksOnly};
ghost use Rattle.sve_settled.specs.Laws.{AskedSettle, CostIsCounted, NeverOver, Settles, SettlesInTurn};

use sve_plan::laws::Question;

/// Where every question's answer is told, a plan is done with its value and its cost, or that cost is more than the fuel.
pub fn plans_settle<Q: Question, X>()
    ensures { (plan : Plan Q.reply X) → Settles plan }
{}

/// With all fuel that can be counted, no plan costs too much, whatever is told.
pub fn plans_are_never_over<Q: Question, X>()
    ensures { (plan : Plan Q.reply X) → NeverOver plan }
{}

/// What a plan costs can be counted in 64 bits, and is not below what was used before.
pub fn costs_are_counted<Q: Question, X>()
    ensures { (plan : Plan Q.reply X) → CostIsCounted plan }
{}

/// Of two plans, the second begins where the first one ends.
pub fn plans_settle_in_turn<Q: Question, X, Y>()
    ensures { (plan : Plan Q.reply X) (next : X → Plan Q.reply Y) → SettlesInTurn plan next }
{}

/// Only the replies to questions that a plan can ask decide what it comes to.
pub fn asked_settle<Q: Question, X>()
    ensures { (can : Q → Bool) (plan : Plan Q.reply X) → AsksOnly (λ q. IsTrue (can q)) plan → AskedSettle (λ q. IsTrue (can q)) plan }
{}
