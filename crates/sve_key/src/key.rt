ghost use Rattle.std.specs.Prelude.{◌≡◌, IfOk};
ghost use Rattle.sve_key.specs.KeyOrder.{rank_of, name_part, number_part};

use std::cmp::Ordering;
use sve_bytes::{Name, NoMemory};

/// What can be asked for of the files of a revision (own).
pub enum Key {
    /// The text of a file, or that no file of this name is there.
    Text(Name),
    /// The names of all files.
    Names,
    /// The tokens of a file and of what it includes (IEEE 1800-2017, clauses 5 and 22).
    Tokens(Name),
    /// The chunks of a file (A.1.2).
    Chunks(Name),
    /// The element of a chunk of a file, by the chunk's number from 0, or where the grammar stops in the chunk.
    Element(Name, u32),
    /// The index of the design: its definitions, its packages and its tops (3.13 and 23.3.1).
    Index,
}

impl Drop for Key {
    fn drop(self) {
        match self {
            Key::Text(_) => {}
            Key::Names => {}
            Key::Tokens(_) => {}
            Key::Chunks(_) => {}
            Key::Element(_, _) => {}
            Key::Index => {}
        }
    }
}

impl Key {
    /// The same key, whose name shares its bytes.
    ///
    /// # Errors
    /// For want of memory alone.
    pub fn copy(&self) -> Result<Key, NoMemory>
        ensures { IfOk result (λ k. k ≡ self.now) }
    {
        match self {
            Key::Text(name) => Ok(Key::Text(name.copy()?)),
            Key::Names => Ok(Key::Names),
            Key::Tokens(name) => Ok(Key::Tokens(name.copy()?)),
            Key::Chunks(name) => Ok(Key::Chunks(name.copy()?)),
            Key::Element(name, n) => Ok(Key::Element(name.copy()?, *n)),
            Key::Index => Ok(Key::Index),
        }
    }

    /// The number of its kind: a key is made of keys whose kinds have lower numbers. It takes no memory.
    pub fn rank(&self) -> u32
        ensures { result ≡ rank_of self.now }
    {
        match self {
            Key::Text(_) => 1,
            Key::Names => 2,
            Key::Tokens(_) => 3,
            Key::Chunks(_) => 4,
            Key::Element(_, _) => 5,
            Key::Index => 6,
        }
    }

    fn name(&self) -> &[u8]
        ensures { result.now ≡ name_part self.now }
    {
        match self {
            Key::Text(name) => name.bytes(),
            Key::Names => &[],
            Key::Tokens(name) => name.bytes(),
            Key::Chunks(name) => name.bytes(),
            Key::Element(name, _) => name.bytes(),
            Key::Index => &[],
        }
    }

    fn number(&self) -> u32
        ensures { result ≡ number_part self.now }
    {
        match self {
            Key::Element(_, n) => *n,
            _ => 0,
        }
    }
}

/// Keys are equal where they are one key.
impl PartialEq for Key {
    ghost use Rattle.std.specs.Cmp.{partial_equiv_from_equiv, eq_by_cmp_equiv};
    ghost use Rattle.std.specs.Ordering.{eq_by_cmp};
    ghost use Rattle.sve_key.specs.KeyOrder.{key_cmp, key_total};

    ghost eq = { eq_by_cmp key_cmp };

    ghost laws = { partial_equiv_from_equiv (eq_by_cmp_equiv key_total) };

    fn eq(&self, other: &Key) -> bool {
        self.cmp(other).is_eq()
    }
}

impl Eq for Key {
    ghost use Rattle.std.specs.Cmp.{eq_by_cmp_equiv};
    ghost use Rattle.sve_key.specs.KeyOrder.{key_total};

    ghost laws = { eq_by_cmp_equiv key_total };
}

impl PartialOrd for Key {
    ghost use Rattle.std.specs.Ordering.{as_partial_cmp};
    ghost use Rattle.std.specs.Cmp.{partial_order_from_total};
    ghost use Rattle.sve_key.specs.KeyOrder.{key_cmp, key_total};

    ghost partial_cmp = { as_partial_cmp key_cmp };

    ghost laws = { partial_order_from_total key_total };

    fn partial_cmp(&self, other: &Key) -> Option<Ordering> {
        Some(self.cmp(other))
    }
}

/// Keys go by the number of their kind, then by their names, then by their numbers. The order answers `Equal` for one and the
/// same key alone.
impl Ord for Key {
    ghost use Rattle.std.specs.Prelude.{◌≡◌, ◌↔◌, refl};
    ghost use Rattle.sve_key.specs.KeyOrder.{key_cmp, key_total};

    ghost cmp = { key_cmp };

    ghost total = { key_total };

    ghost matches_partial_cmp = { λ a b. refl };

    ghost matches_eq = { λ a b. refl };

    #[tactic(auto, using(crate::specs::KeyOrder::one_key))]
    fn cmp(&self, other: &Key) -> Ordering
        ensures order { result ≡ key_cmp self.now other.now }
        ensures equal { (result ≡ Ordering.Equal) ↔ (self.now ≡ other.now) }
    {
        self.rank().cmp(&other.rank()).then(
            self.name()
                .cmp(other.name())
                .then(self.number().cmp(&other.number())),
        )
    }
}
