ghost use Rattle.std.specs.Prelude.{◌≡◌, ℕ, ◌<◌, ◌≤◌, ◌↔◌, length, IfOk, IsErrOf};

use crate::NoMemory;
use std::alloc::{AllocError, Global};
use std::cmp::Ordering;
use std::hash::{Hash, Hasher};
use std::marker::Model;
use std::sync::ArcSlice;
use thiserror::Error;

/// The greatest length of a name, in bytes: the limit on identifiers of this profile (own; IEEE
/// 1800-2017, 5.6, asks tools for at least 1,024).
pub const MAX_NAME_LEN: usize = 1024;

/// Why bytes are no name.
#[derive(Debug, Drop, Error)]
pub enum BadName {
    /// There is no byte.
    #[error("a name has at least one byte")]
    Empty,
    /// There are so many bytes, which is more than a name may have.
    #[error("a name of {0} bytes is too long")]
    TooLong(usize),
    /// There was no memory for the name.
    #[error("no memory for a name")]
    NoMemory,
}

/// A name of 1 to 1,024 bytes: an identifier, a file name or a label. Copies share its bytes.
pub struct Name {
    bytes: ArcSlice<u8>,
}

impl Drop for Name {
    fn drop(self) {
        let Name { bytes: _ } = self;
    }
}

impl Model for Name {
    ghost use Rattle.std.specs.Prelude.{List, ℕ, ◌<◌, ◌≤◌, length};
    ghost use Rattle.std.specs.Arc.{arc_slice_items};

    ghost Value = { List ℕ };

    ghost view = { λ n. arc_slice_items n.bytes };

    ghost invariant = { λ n. (0 < length (arc_slice_items n.bytes)) × (length (arc_slice_items n.bytes) ≤ 1024) };
}

impl Name {
    /// The name of these bytes.
    ///
    /// # Errors
    /// `Empty` exactly where there is no byte, `TooLong` exactly where there are more than 1,024.
    pub fn of(alloc: Global, bytes: &[u8]) -> Result<Name, BadName>
        ensures name { IfOk result (λ n. n ≡ bytes.now) }
        ensures empty { IsErrOf result BadName.Empty ↔ (length bytes.now ≡ 0) }
        ensures too_long { (n : ℕ) → IsErrOf result (BadName.TooLong n) ↔ ((n ≡ length bytes.now) × (MAX_NAME_LEN < n)) }
    {
        if bytes.is_empty() {
            return Err(BadName::Empty);
        }
        if bytes.len() > MAX_NAME_LEN {
            return Err(BadName::TooLong(bytes.len()));
        }
        match ArcSlice::from_slice(alloc, bytes) {
            Ok(bytes) => Ok(Name { bytes }),
            Err(AllocError) => Err(BadName::NoMemory),
        }
    }

    /// The bytes, 1 to 1,024 of them. It takes no memory.
    pub fn bytes(&self) -> &[u8]
        ensures bytes { result.now ≡ self.now }
        ensures not_empty { 0 < length self.now }
        ensures in_limit { length self.now ≤ MAX_NAME_LEN }
    {
        self.bytes.as_slice()
    }

    /// The same name, which shares its bytes.
    pub fn copy(&self) -> Result<Name, NoMemory>
        ensures { IfOk result (λ n. n ≡ self.now) }
    {
        Ok(Name {
            bytes: self.bytes.clone()?,
        })
    }
}

impl PartialEq for Name {
    ghost use Rattle.std.specs.Prelude.{nat_eq};
    ghost use Rattle.std.specs.Cmp.{partial_equiv_from_equiv};
    ghost use Rattle.std.specs.Cmp.Lexicographic.{pointwise, nat_list_eq_equiv};

    ghost eq = { pointwise nat_eq };

    ghost laws = { partial_equiv_from_equiv nat_list_eq_equiv };

    fn eq(&self, other: &Name) -> bool {
        self.bytes.as_slice() == other.bytes.as_slice()
    }
}

impl Eq for Name {
    ghost use Rattle.std.specs.Cmp.Lexicographic.{nat_list_eq_equiv};

    ghost laws = { nat_list_eq_equiv };
}

/// What is hashed of a name are its bytes, so that equal names share a place in a table.
impl Hash for Name {
    ghost use Rattle.std.proofs.Common.{rules};
    ghost use Rattle.std.specs.Cmp.Rules.{hashing};
    ghost use Rattle.std.specs.Hash as fed;

    ghost hash_input = { λ n. fed.slice fed.u8 n };

    ghost respects_eq = { Prim.search (hashing, rules) };

    fn hash<H: Hasher>(&self, state: &mut H) {
        self.bytes.as_slice().hash(state);
    }
}

/// Names are ordered by their bytes.
impl PartialOrd for Name {
    ghost use Rattle.std.specs.Prelude.{Some};
    ghost use Rattle.std.specs.Ordering.{nat_cmp};
    ghost use Rattle.std.specs.Cmp.Lexicographic.{slice_cmp, texts_po};

    ghost partial_cmp = { λ a b. Some (slice_cmp nat_cmp a b) };

    ghost laws = { texts_po };

    fn partial_cmp(&self, other: &Name) -> Option<Ordering> {
        Some(self.cmp(other))
    }
}

impl Ord for Name {
    ghost use Rattle.std.specs.Prelude.{refl};
    ghost use Rattle.std.specs.Ordering.{nat_cmp};
    ghost use Rattle.std.specs.Cmp.Lexicographic.{slice_cmp, nat_list_cmp_total, texts_ties};

    ghost cmp = { slice_cmp nat_cmp };

    ghost total = { nat_list_cmp_total };

    ghost matches_partial_cmp = { λ a b. refl };

    ghost matches_eq = { texts_ties };

    fn cmp(&self, other: &Name) -> Ordering {
        self.bytes.as_slice().cmp(other.bytes.as_slice())
    }
}
