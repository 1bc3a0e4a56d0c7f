//! What the index of a design takes from each element, and that the words of a chunk decide it: so elements that say the same,
//! wherever they lie in memory, make the same index.
#![tactic(auto)]

ghost use Rattle.std.specs.Prelude.{◌≡◌, ℕ, List, map, Ok};
ghost use Rattle.sve_token.specs.declared.token.Token.{Token};
ghost use Rattle.sve_grammar.specs.Items.{chunk};
ghost use Rattle.sve_grammar.specs.Reading.{at_depth};
ghost use Rattle.sve_tree.specs.TokenWords.{words_of};
ghost use Rattle.sve_tree.specs.Elements.{element_tree};
ghost use Rattle.sve_index.specs.declared.source.FileElement.{FileElement};
ghost use Rattle.sve_index.specs.Sources.{element_in, words_in};
ghost use Rattle.sve_index.specs.Whole.{index_of};
ghost use Rattle.sve_gist.specs.Gists.{gist_of, gist_of_words, read_words};
ghost use Rattle.sve_gist.specs.Index.{index_of_gists};

/// A chunk is read by its words as it is by its tokens.
#[tactic(auto, using(crate::proofs::Decided::read_by_words))]
pub fn chunks_are_read_by_words()
    ensures { (ts : List Token) → read_words (words_of ts) ≡ at_depth ts 0 chunk 0 }
{}

/// What the index takes from an element is what is read off the words of its chunk.
pub fn words_decide_the_gist()
    ensures { (source : FileElement) (n : ℕ) → read_words (words_in source) ≡ Ok (element_tree (element_in source), n) → gist_of_words source.file source.chunk (words_in source) ≡ gist_of source }
{}

/// The index of elements is the index over what it takes from them (IEEE 1800-2017, 3.13, 6.20.1 and 23.3.1).
pub fn gists_decide_the_index()
    ensures { (sources : List FileElement) → index_of sources ≡ index_of_gists (map gist_of sources) }
{}
