use crate::{Code, Diag, Place};
use std::cmp::Ordering;

/// Codes are equal where they are spelled alike.
impl PartialEq for Code {
    ghost use Rattle.std.specs.Cmp.{partial_equiv_from_equiv, eq_by_cmp_equiv};
    ghost use Rattle.std.specs.Ordering.{eq_by_cmp};
    ghost use Rattle.sve_diag.specs.DiagOrder.{code_cmp, code_total};

    ghost eq = { eq_by_cmp code_cmp };

    ghost laws = { partial_equiv_from_equiv (eq_by_cmp_equiv code_total) };

    fn eq(&self, other: &Code) -> bool {
        self.cmp(other).is_eq()
    }
}

impl Eq for Code {
    ghost use Rattle.std.specs.Cmp.{eq_by_cmp_equiv};
    ghost use Rattle.sve_diag.specs.DiagOrder.{code_total};

    ghost laws = { eq_by_cmp_equiv code_total };
}

impl PartialOrd for Code {
    ghost use Rattle.std.specs.Ordering.{as_partial_cmp};
    ghost use Rattle.std.specs.Cmp.{partial_order_from_total};
    ghost use Rattle.sve_diag.specs.DiagOrder.{code_cmp, code_total};

    ghost partial_cmp = { as_partial_cmp code_cmp };

    ghost laws = { partial_order_from_total code_total };

    fn partial_cmp(&self, other: &Code) -> Option<Ordering> {
        Some(self.cmp(other))
    }
}

/// Codes go by the bytes of their spelling.
impl Ord for Code {
    ghost use Rattle.std.specs.Prelude.{◌≡◌, ◌↔◌, refl};
    ghost use Rattle.sve_diag.specs.DiagOrder.{code_cmp, code_total};

    ghost cmp = { code_cmp };

    ghost total = { code_total };

    ghost matches_partial_cmp = { λ a b. refl };

    ghost matches_eq = { λ a b. refl };

    fn cmp(&self, other: &Code) -> Ordering
        ensures order { result ≡ code_cmp self.now other.now }
        ensures equal { (result ≡ Ordering.Equal) ↔ (self.now ≡ other.now) }
    {
        self.spelling().cmp(other.spelling())
    }
}

/// Places are equal where file and offset are.
impl PartialEq for Place {
    ghost use Rattle.std.specs.Cmp.{partial_equiv_from_equiv, eq_by_cmp_equiv};
    ghost use Rattle.std.specs.Ordering.{eq_by_cmp};
    ghost use Rattle.sve_diag.specs.DiagOrder.{place_cmp, place_total};

    ghost eq = { eq_by_cmp place_cmp };

    ghost laws = { partial_equiv_from_equiv (eq_by_cmp_equiv place_total) };

    fn eq(&self, other: &Place) -> bool {
        self.cmp(other).is_eq()
    }
}

impl Eq for Place {
    ghost use Rattle.std.specs.Cmp.{eq_by_cmp_equiv};
    ghost use Rattle.sve_diag.specs.DiagOrder.{place_total};

    ghost laws = { eq_by_cmp_equiv place_total };
}

impl PartialOrd for Place {
    ghost use Rattle.std.specs.Ordering.{as_partial_cmp};
    ghost use Rattle.std.specs.Cmp.{partial_order_from_total};
    ghost use Rattle.sve_diag.specs.DiagOrder.{place_cmp, place_total};

    ghost partial_cmp = { as_partial_cmp place_cmp };

    ghost laws = { partial_order_from_total place_total };

    fn partial_cmp(&self, other: &Place) -> Option<Ordering> {
        Some(self.cmp(other))
    }
}

/// Places go by the bytes of their files' names, then by their offsets.
impl Ord for Place {
    ghost use Rattle.std.specs.Prelude.{◌≡◌, ◌↔◌, refl};
    ghost use Rattle.sve_diag.specs.DiagOrder.{place_cmp, place_total};

    ghost cmp = { place_cmp };

    ghost total = { place_total };

    ghost matches_partial_cmp = { λ a b. refl };

    ghost matches_eq = { λ a b. refl };

    fn cmp(&self, other: &Place) -> Ordering
        ensures order { result ≡ place_cmp self.now other.now }
        ensures equal { (result ≡ Ordering.Equal) ↔ (self.now ≡ other.now) }
    {
        self.file
            .cmp(&other.file)
            .then(self.offset.cmp(&other.offset))
    }
}

/// Diagnostics are equal where place, code and argument are.
impl PartialEq for Diag {
    ghost use Rattle.std.specs.Cmp.{partial_equiv_from_equiv, eq_by_cmp_equiv};
    ghost use Rattle.std.specs.Ordering.{eq_by_cmp};
    ghost use Rattle.sve_diag.specs.DiagOrder.{diag_cmp, diag_total};

    ghost eq = { eq_by_cmp diag_cmp };

    ghost laws = { partial_equiv_from_equiv (eq_by_cmp_equiv diag_total) };

    fn eq(&self, other: &Diag) -> bool {
        self.cmp(other).is_eq()
    }
}

impl Eq for Diag {
    ghost use Rattle.std.specs.Cmp.{eq_by_cmp_equiv};
    ghost use Rattle.sve_diag.specs.DiagOrder.{diag_total};

    ghost laws = { eq_by_cmp_equiv diag_total };
}

impl PartialOrd for Diag {
    ghost use Rattle.std.specs.Ordering.{as_partial_cmp};
    ghost use Rattle.std.specs.Cmp.{partial_order_from_total};
    ghost use Rattle.sve_diag.specs.DiagOrder.{diag_cmp, diag_total};

    ghost partial_cmp = { as_partial_cmp diag_cmp };

    ghost laws = { partial_order_from_total diag_total };

    fn partial_cmp(&self, other: &Diag) -> Option<Ordering> {
        Some(self.cmp(other))
    }
}

/// Diagnostics go by their places, then by their codes as they are spelled, then by their arguments, of which a
/// missing one is first.
impl Ord for Diag {
    ghost use Rattle.std.specs.Prelude.{◌≡◌, ◌↔◌, refl};
    ghost use Rattle.sve_diag.specs.DiagOrder.{diag_cmp, diag_total};

    ghost cmp = { diag_cmp };

    ghost total = { diag_total };

    ghost matches_partial_cmp = { λ a b. refl };

    ghost matches_eq = { λ a b. refl };

    fn cmp(&self, other: &Diag) -> Ordering
        ensures order { result ≡ diag_cmp self.now other.now }
        ensures equal { (result ≡ Ordering.Equal) ↔ (self.now ≡ other.now) }
    {
        self.place
            .cmp(&other.place)
            .then(self.code.cmp(&other.code))
            .then(self.arg.cmp(&other.arg))
    }
}
