ghost use Rattle.std.specs.Prelude.{◌≡◌};
ghost use Rattle.sve_bytes.specs.TreeOrder.{tree_cmp};
ghost use Rattle.sve_spec.specs.Trees.{spec_tree};

use crate::row_order::row_order;
use crate::spec::Spec;
use crate::value_order::name_order;
use std::cmp::Ordering;

/// Specializations are equal where the order does not tell them apart.
impl PartialEq for Spec {
    ghost use Rattle.std.specs.Cmp.{eq_by_cmp_equiv, partial_equiv_from_equiv};
    ghost use Rattle.std.specs.Ordering.{eq_by_cmp};
    ghost use Rattle.sve_spec.specs.SpecOrder.{spec_cmp, spec_total};

    ghost eq = { eq_by_cmp spec_cmp };

    ghost laws = { partial_equiv_from_equiv (eq_by_cmp_equiv spec_total) };

    fn eq(&self, other: &Spec) -> bool {
        self.cmp(other).is_eq()
    }
}

impl Eq for Spec {
    ghost use Rattle.std.specs.Cmp.{eq_by_cmp_equiv};
    ghost use Rattle.sve_spec.specs.SpecOrder.{spec_total};

    ghost laws = { eq_by_cmp_equiv spec_total };
}

impl PartialOrd for Spec {
    ghost use Rattle.std.specs.Cmp.{partial_order_from_total};
    ghost use Rattle.std.specs.Ordering.{as_partial_cmp};
    ghost use Rattle.sve_spec.specs.SpecOrder.{spec_cmp, spec_total};

    ghost partial_cmp = { as_partial_cmp spec_cmp };

    ghost laws = { partial_order_from_total spec_total };

    fn partial_cmp(&self, other: &Spec) -> Option<Ordering> {
        Some(self.cmp(other))
    }
}

/// Specializations go by the names of their modules or interfaces, then by what their parameters and their interface ports are
/// given. The order answers `Equal` for one and the same specialization alone.
impl Ord for Spec {
    ghost use Rattle.std.specs.Prelude.{◌≡◌, ◌↔◌, refl};
    ghost use Rattle.sve_spec.specs.SpecOrder.{spec_cmp, spec_total};

    ghost cmp = { spec_cmp };

    ghost total = { spec_total };

    ghost matches_partial_cmp = { λ a b. refl };

    ghost matches_eq = { λ a b. refl };

    fn cmp(&self, other: &Spec) -> Ordering
        ensures order { result ≡ spec_cmp self.now other.now }
        ensures equal { (result ≡ Ordering.Equal) ↔ (self.now ≡ other.now) }
    {
        spec_order(self, other)
    }
}

fn spec_order(spec: &Spec, other: &Spec) -> Ordering
    ensures { result ≡ tree_cmp (spec_tree spec.now) (spec_tree other.now) }
{
    let given = row_order(spec.values.items(), other.values.items()).then(row_order(
        spec.faces.items(),
        other.faces.items(),
    ));
    name_order(&spec.definition, &other.definition).then(given)
}
