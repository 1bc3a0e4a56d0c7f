ghost use Rattle.std.specs.Prelude.{◌≡◌, List as Items, map, IfOk, option_map};
ghost use Rattle.sve_token.specs.declared.token.Token.{Token};
ghost use Rattle.sve_tree.specs.TokenWords.{is_spelled, unescaped, word_of, words_of, name_in, bytes_in};

use std::alloc::{AllocError, Global};
use sve_bytes::{BadName, List, Name, NoMemory};
use sve_token::{Kind, Token};

/// What a token says, apart from its place: two chunks whose words are the same have the same tree and the same meaning.
pub struct Word {
    /// What the token is.
    pub kind: Kind,
    /// Of an identifier its name, which is without the backslash of an escaped one (IEEE 1800-2017, 5.6.1); of a literal and of
    /// the name of a system task the bytes, or the first 1,024 of them. A keyword and an operator have none, since the kind
    /// says them.
    pub spelling: Option<Name>,
    /// All bytes of a literal where they are more than 1,024, else none.
    pub text: List<u8>,
}

impl Drop for Word {
    fn drop(self) {
        let Word {
            kind: _,
            spelling: _,
            text: _,
        } = self;
    }
}

/// Whether tokens of this kind differ in their bytes.
fn is_spelled(kind: Kind) -> bool
    ensures { result ≡ is_spelled kind }
{
    match kind {
        Kind::Identifier | Kind::SystemName | Kind::Decimal | Kind::Based => true,
        Kind::Unbased | Kind::Text | Kind::Bad => true,
        _ => false,
    }
}

/// The bytes without the backslash of an escaped identifier.
fn unescaped(alloc: Global, spelling: &Name) -> Result<Name, NoMemory>
    ensures { IfOk result (λ n. n ≡ unescaped spelling.now) }
{
    let bytes = spelling.bytes();
    if bytes.len() < 2 || bytes[0] != b'\\' {
        return spelling.copy();
    }
    match Name::of(alloc, &bytes[1..]) {
        Ok(name) => Ok(name),
        Err(BadName::NoMemory) => Err(AllocError),
        Err(BadName::Empty) => unreachable!(),
        Err(BadName::TooLong(_)) => unreachable!(),
    }
}

impl Word {
    /// The word of a token. It shares the token's bytes, but for the name of an escaped identifier and for a text of more than
    /// 1,024 bytes.
    pub fn of(alloc: Global, token: &Token) -> Result<Word, NoMemory>
        ensures { IfOk result (λ w. w ≡ word_of token.now) }
    {
        let kind = token.kind;
        if !is_spelled(kind) {
            let text = List::of(Vec::new(alloc));
            return Ok(Word {
                kind,
                spelling: None,
                text,
            });
        }
        let spelling = if kind == Kind::Identifier {
            unescaped(alloc, &token.spelling)?
        } else {
            token.spelling.copy()?
        };
        let text = List::of(Vec::from_slice(alloc, token.text.items())?);
        Ok(Word {
            kind,
            spelling: Some(spelling),
            text,
        })
    }

    /// The name, where the word is an identifier.
    pub fn name(&self) -> Option<&Name>
        ensures { option_map (λ n. n.now) result ≡ name_in self.now }
    {
        if self.kind != Kind::Identifier {
            return None;
        }
        match &self.spelling {
            Some(name) => Some(name),
            None => None,
        }
    }

    /// The bytes of a literal or of the name of a system task; none for a keyword and an operator. It takes no memory.
    pub fn bytes(&self) -> &[u8]
        ensures { result.now ≡ bytes_in self.now }
    {
        let text = self.text.items();
        if !text.is_empty() {
            return text;
        }
        match &self.spelling {
            Some(name) => name.bytes(),
            None => text,
        }
    }
}

/// Words tell the kinds of their tokens, and what is read depends on these alone: chunks whose words are the same are read alike.
#[tactic(auto, using(crate::proofs::WordKinds::same_kinds))]
pub fn words_tell_kinds()
    ensures { (ts us : Items Token) → words_of ts ≡ words_of us → map (λ t. t.kind) ts ≡ map (λ t. t.kind) us }
{}
