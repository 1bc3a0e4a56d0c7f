ghost use Rattle.std.specs.Prelude.{◌≡◌, ◌↔◌, IsTrue};
ghost use Rattle.sve_same.specs.Kinds.{word_of, reserved_of};

use crate::kinds::{place_of, reserved_of, word_of};
use crate::same::Same;
use sve_bytes::{List, Name, NetType};
use sve_diag::{Code, Diag, Note, Place};
use sve_index::Def;
use sve_token::{Keyword, Kind, Reserved, Token};
use sve_tree::Word;
use sve_unit::Chunk;

impl Same for Name {
    fn same(&self, other: &Name) -> bool {
        self == other
    }
}

impl Same for Code {
    fn same(&self, other: &Code) -> bool {
        self.cmp(other).is_eq()
    }
}

impl Same for Place {
    fn same(&self, other: &Place) -> bool {
        self.cmp(other).is_eq()
    }
}

impl Same for Diag {
    fn same(&self, other: &Diag) -> bool {
        self.cmp(other).is_eq()
    }
}

impl Same for NetType {
    fn same(&self, other: &NetType) -> bool {
        self == other
    }
}

impl Same for Keyword {
    fn same(&self, other: &Keyword) -> bool {
        self == other
    }
}

impl Same for Reserved {
    fn same(&self, other: &Reserved) -> bool {
        self == other
    }
}

/// Whether two kinds have the same keywords.
fn same_words(kind: Kind, other: Kind) -> bool
    ensures { IsTrue result ↔ ((word_of kind ≡ word_of other) × (reserved_of kind ≡ reserved_of other)) }
{
    word_of(kind).same(&word_of(other)) && reserved_of(kind).same(&reserved_of(other))
}

impl Same for Kind {
    #[tactic(auto, using(crate::proofs::Exact::one_kind))]
    fn same(&self, other: &Kind) -> bool {
        place_of(*self) == place_of(*other) && same_words(*self, *other)
    }
}

/// Whether two names are one, or both are missing. It takes no memory.
pub fn same_option(name: &Option<Name>, other: &Option<Name>) -> bool
    ensures { IsTrue result ↔ (name.now ≡ other.now) }
{
    let Some(name) = name else {
        return other.is_none();
    };
    let Some(other) = other else {
        return false;
    };
    name.same(other)
}

/// Whether two texts have the same bytes. It takes no memory.
pub fn same_bytes(bytes: &List<u8>, others: &List<u8>) -> bool
    ensures { IsTrue result ↔ (bytes.now ≡ others.now) }
{
    bytes.items() == others.items()
}

impl Same for Token {
    #[tactic(auto, using(crate::proofs::Records::one_token))]
    fn same(&self, other: &Token) -> bool {
        self.kind.same(&other.kind)
            && self.place.same(&other.place)
            && self.copied == other.copied
            && self.spelling.same(&other.spelling)
            && same_bytes(&self.text, &other.text)
    }
}

impl Same for Note {
    #[tactic(auto, using(crate::proofs::Records::one_note))]
    fn same(&self, other: &Note) -> bool {
        self.chunk == other.chunk
            && self.token == other.token
            && self.file.same(&other.file)
            && self.code.same(&other.code)
            && same_option(&self.arg, &other.arg)
    }
}

impl Same for (u32, NetType) {
    #[tactic(auto, using(crate::proofs::Records::one_pair))]
    fn same(&self, other: &(u32, NetType)) -> bool {
        self.0 == other.0 && self.1.same(&other.1)
    }
}

impl Same for Word {
    #[tactic(auto, using(crate::proofs::Records::one_word))]
    fn same(&self, other: &Word) -> bool {
        self.kind.same(&other.kind)
            && same_option(&self.spelling, &other.spelling)
            && same_bytes(&self.text, &other.text)
    }
}

impl Same for Chunk {
    #[tactic(auto, using(crate::proofs::Records::one_chunk))]
    fn same(&self, other: &Chunk) -> bool {
        self.from == other.from && self.to == other.to
    }
}

impl Same for Def {
    #[tactic(auto, using(crate::proofs::Records::one_def))]
    fn same(&self, other: &Def) -> bool {
        self.chunk == other.chunk && self.name.same(&other.name) && self.file.same(&other.file)
    }
}
