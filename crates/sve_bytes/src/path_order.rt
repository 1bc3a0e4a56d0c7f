use crate::{Path, Step};
use std::cmp::Ordering;

/// Steps are equal where name and index are.
impl PartialEq for Step {
    ghost use Rattle.std.specs.Cmp.{partial_equiv_from_equiv, eq_by_cmp_equiv};
    ghost use Rattle.std.specs.Ordering.{eq_by_cmp};
    ghost use Rattle.sve_bytes.specs.PathOrder.{step_cmp, step_total};

    ghost eq = { eq_by_cmp step_cmp };

    ghost laws = { partial_equiv_from_equiv (eq_by_cmp_equiv step_total) };

    fn eq(&self, other: &Step) -> bool {
        self.cmp(other).is_eq()
    }
}

impl Eq for Step {
    ghost use Rattle.std.specs.Cmp.{eq_by_cmp_equiv};
    ghost use Rattle.sve_bytes.specs.PathOrder.{step_total};

    ghost laws = { eq_by_cmp_equiv step_total };
}

impl PartialOrd for Step {
    ghost use Rattle.std.specs.Ordering.{as_partial_cmp};
    ghost use Rattle.std.specs.Cmp.{partial_order_from_total};
    ghost use Rattle.sve_bytes.specs.PathOrder.{step_cmp, step_total};

    ghost partial_cmp = { as_partial_cmp step_cmp };

    ghost laws = { partial_order_from_total step_total };

    fn partial_cmp(&self, other: &Step) -> Option<Ordering> {
        Some(self.cmp(other))
    }
}

/// Steps go by the bytes of their names, then by their indices, of which a missing one is first.
impl Ord for Step {
    ghost use Rattle.std.specs.Prelude.{◌≡◌, ◌↔◌, refl};
    ghost use Rattle.sve_bytes.specs.PathOrder.{step_cmp, step_total};

    ghost cmp = { step_cmp };

    ghost total = { step_total };

    ghost matches_partial_cmp = { λ a b. refl };

    ghost matches_eq = { λ a b. refl };

    fn cmp(&self, other: &Step) -> Ordering
        ensures order { result ≡ step_cmp self.now other.now }
        ensures equal { (result ≡ Ordering.Equal) ↔ (self.now ≡ other.now) }
    {
        self.name
            .cmp(&other.name)
            .then(self.index.cmp(&other.index))
    }
}

/// Paths are equal where all their steps are.
impl PartialEq for Path {
    ghost use Rattle.std.specs.Cmp.{partial_equiv_from_equiv, eq_by_cmp_equiv};
    ghost use Rattle.std.specs.Ordering.{eq_by_cmp};
    ghost use Rattle.sve_bytes.specs.PathOrder.{path_cmp, path_total};

    ghost eq = { eq_by_cmp path_cmp };

    ghost laws = { partial_equiv_from_equiv (eq_by_cmp_equiv path_total) };

    fn eq(&self, other: &Path) -> bool {
        self.cmp(other).is_eq()
    }
}

impl Eq for Path {
    ghost use Rattle.std.specs.Cmp.{eq_by_cmp_equiv};
    ghost use Rattle.sve_bytes.specs.PathOrder.{path_total};

    ghost laws = { eq_by_cmp_equiv path_total };
}

impl PartialOrd for Path {
    ghost use Rattle.std.specs.Ordering.{as_partial_cmp};
    ghost use Rattle.std.specs.Cmp.{partial_order_from_total};
    ghost use Rattle.sve_bytes.specs.PathOrder.{path_cmp, path_total};

    ghost partial_cmp = { as_partial_cmp path_cmp };

    ghost laws = { partial_order_from_total path_total };

    fn partial_cmp(&self, other: &Path) -> Option<Ordering> {
        Some(self.cmp(other))
    }
}

/// Paths go by their steps from the first, and a path before those that it begins.
impl Ord for Path {
    ghost use Rattle.std.specs.Prelude.{◌≡◌, ◌↔◌, refl};
    ghost use Rattle.sve_bytes.specs.PathOrder.{path_cmp, path_total};

    ghost cmp = { path_cmp };

    ghost total = { path_total };

    ghost matches_partial_cmp = { λ a b. refl };

    ghost matches_eq = { λ a b. refl };

    fn cmp(&self, other: &Path) -> Ordering
        ensures order { result ≡ path_cmp self.now other.now }
        ensures equal { (result ≡ Ordering.Equal) ↔ (self.now ≡ other.now) }
    {
        self.steps.items().cmp(other.steps.items())
    }
}
