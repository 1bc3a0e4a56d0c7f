//! What holds of the elaboration of every specialization. The clause of each function is a law, and its body does nothing.
ghost use Rattle.sve_spec.specs.declared.spec.Spec.{Spec};
ghost use Rattle.sve_plan.specs.Plan.{AsksOnly};
ghost use Rattle.sve_plan.specs.Laws.{AskedDecide, CostIsExact, LessIsOverOrSame, SettledAlike};
ghost use Rattle.sve_elaborate.specs.Bodies.{IsNoPorts, elaborated, header_ports};

/// A body that is done with a cost is done alike with every fuel from that cost on, and costs too much for every fuel below it.
pub fn bodies_cost_exactly()
    ensures { (spec : Spec) → CostIsExact (elaborated spec) }
{}

/// With less fuel a body costs too much, or comes to what it comes to with more.
pub fn bodies_with_less_fuel()
    ensures { (spec : Spec) → LessIsOverOrSame (elaborated spec) }
{}

/// A body that is done, or costs too much, comes to the same over whatever else is told, and asks the same questions, all of which are told.
pub fn bodies_settle_alike()
    ensures { (spec : Spec) → SettledAlike (elaborated spec) }
{}

/// What is told of the questions that a body asks decides what it comes to and what it asks.
pub fn bodies_by_what_they_ask()
    ensures { (spec : Spec) → AskedDecide (elaborated spec) }
{}

/// The ports of a specialization ask for no ports.
pub fn headers_ask_for_no_ports()
    ensures { (spec : Spec) → AsksOnly IsNoPorts (header_ports spec) }
{}
