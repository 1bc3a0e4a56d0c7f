ghost use Rattle.std.specs.Prelude.{◌≡◌, map};
ghost use Rattle.sve_facts.specs.Bodies.{Design};
ghost use Rattle.sve_design.specs.Walk.{instances};
ghost use Rattle.sve_survey.specs.Seen.{seen, visit_of};

/// The instances that a survey shows have the paths, the specializations and the depths of those that a walk visits, in one order.
pub fn visits_are_the_instances()
    ensures { (design : Design) → map visit_of (seen design) ≡ instances design }
{}
