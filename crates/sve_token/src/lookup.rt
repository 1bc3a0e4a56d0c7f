ghost use Rattle.std.specs.Prelude.{◌≡◌, ◌↔◌, IsSome, IsTrue, Some, map};
ghost use Rattle.sve_bytes.specs.Keywords.{is_keyword_text};
ghost use Rattle.sve_token.specs.WordText.{word_text, keyword_text, reserved_text};
ghost use Rattle.sve_token.specs.Keywords.{keyword_of, spelled_so};
ghost use Rattle.sve_token.specs.declared.keywords.Keyword.{Keyword};
ghost use Rattle.sve_token.specs.declared.reserved.Reserved.{Reserved};

use crate::Kind;
use crate::keyword_table::kinds_at;
use sve_bytes::keywords_from;

/// The kind that stands beside the word that these bytes are.
fn beside(words: &[sve_bytes::Keyword], kinds: &[Kind], bytes: &[u8]) -> Option<Kind>
    requires { map word_text kinds.now ≡ map (λ w. w.text.now) words.now }
    ensures { result ≡ spelled_so kinds.now bytes.now }
{
    for (i, word) in words.iter().enumerate() {
        if word.text == bytes {
            return Some(kinds[i]);
        }
    }
    None
}

/// The kind of the keyword that these bytes are, if they are one. It takes no memory (IEEE 1800-2017, Annex B).
pub fn keyword(bytes: &[u8]) -> Option<Kind>
    ensures value { result ≡ keyword_of bytes.now }
    ensures spelled { (k : Keyword) → (result ≡ Some (Kind.Keyword k)) ↔ (bytes.now ≡ keyword_text k) }
    ensures unread { (r : Reserved) → (result ≡ Some (Kind.Reserved r)) ↔ (bytes.now ≡ reserved_text r) }
    ensures reserved { IsSome result ↔ IsTrue (is_keyword_text bytes.now) }
{
    if bytes.is_empty() {
        return None;
    }
    beside(keywords_from(bytes[0]), kinds_at(bytes[0]), bytes)
}
