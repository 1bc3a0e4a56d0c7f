ghost use Rattle.std.specs.Prelude.{◌≡◌, drop, take};
ghost use Rattle.sve_imports.specs.Naming.{definition_start, own_words, unit_words, words_before};

use sve_tree::{Design, Element, Word};

/// The words from one on.
fn words_from(words: &[Word], first: usize) -> &[Word]
    ensures { result.now ≡ drop first words.now }
{
    if first < words.len() {
        words.split_at(first).1
    } else {
        &[]
    }
}

/// The words in front of one.
fn words_below(words: &[Word], end: usize) -> &[Word]
    ensures { result.now ≡ take end words.now }
{
    if end < words.len() {
        words.split_at(end).0
    } else {
        words
    }
}

/// The number of the first word of a module, an interface or a package: its keyword.
fn definition_start(design: &Design) -> u32
    ensures { result ≡ definition_start design.now }
{
    match design {
        Design::Module { keyword, .. } => keyword.token,
        Design::Interface { keyword, .. } => *keyword,
        Design::Package { unit } => unit.keyword,
    }
}

/// The words in front of the module, interface or package, or all where there is none.
fn words_before<'a>(words: &'a [Word], design: &Option<Design>) -> &'a [Word]
    ensures { result.now ≡ words_before words.now design.now }
{
    match design {
        Some(design) => words_below(words, definition_start(design) as usize),
        None => words,
    }
}

/// The words of an element that its own text has: of a package those from its keyword on, of another element all.
pub(crate) fn own_words(element: &Element) -> &[Word]
    ensures { result.now ≡ own_words element.now }
{
    let words = element.words.as_slice();
    match &element.design {
        Some(Design::Package { unit }) => words_from(words, unit.keyword as usize),
        _ => words,
    }
}

/// The words of the items of the compilation unit's scope.
pub(crate) fn unit_words(element: &Element) -> &[Word]
    ensures { result.now ≡ unit_words element.now }
{
    words_before(element.words.as_slice(), &element.design)
}
