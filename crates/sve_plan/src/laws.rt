//! What holds of every plan. The clause of each function is a law, and its body does nothing.
ghost use Rattle.std.specs.Prelude.{ℕ, ◌<◌};
ghost use Rattle.sve_plan.specs.Plan.{Plan, AsksOnly};
ghost use Rattle.sve_plan.specs.Laws.{CostIsExact, LessIsOverOrSame, SettledAlike, NeedsItsOwn, NeedsTheLast, AsksFirstOfMore, AskedDecide, AsksItsOwn};

/// A question, whose answers have a type of their own.
pub trait Question {
    // The type of its answers.
    ghost reply: { Self → Type 0 };
}

/// A plan that is done with a cost is done alike with every fuel from that cost on, and costs too much for every fuel below it.
pub fn cost_is_exact<Q: Question, X>()
    ensures { (plan : Plan Q.reply X) → CostIsExact plan }
{}

/// With less fuel a plan costs too much, or comes to what it comes to with more.
pub fn less_is_over_or_same<Q: Question, X>()
    ensures { (plan : Plan Q.reply X) → LessIsOverOrSame plan }
{}

/// A plan that is done, or costs too much, comes to the same over whatever else is told, and asks the same questions.
pub fn settled_alike<Q: Question, X>()
    ensures { (plan : Plan Q.reply X) → SettledAlike plan }
{}

/// A plan that can ask only questions of lower rank asks no others, and what it needs is one of these of which nothing is told.
pub fn needs_lower_rank<Q: Question, X>()
    ensures needs { (plan : Plan Q.reply X) (rank : Q → ℕ) (bound : ℕ) → AsksOnly (λ q. rank q < bound) plan → NeedsItsOwn (λ q. rank q < bound) plan }
    ensures asks { (plan : Plan Q.reply X) (rank : Q → ℕ) (bound : ℕ) → AsksOnly (λ q. rank q < bound) plan → AsksItsOwn (λ q. rank q < bound) plan }
{}

/// The question that a plan needs is the last that it asks, and all that it asked before were answered.
pub fn needs_the_last<Q: Question, X>()
    ensures { (plan : Plan Q.reply X) → NeedsTheLast plan }
{}

/// Where more is told, a plan first asks what it asked before, in the same order.
pub fn asks_first_of_more<Q: Question, X>()
    ensures { (plan : Plan Q.reply X) → AsksFirstOfMore plan }
{}

/// What is told of the questions that a plan asks decides what it comes to and what it asks.
pub fn asked_decide<Q: Question, X>()
    ensures { (plan : Plan Q.reply X) → AskedDecide plan }
{}
