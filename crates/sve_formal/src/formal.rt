ghost use Rattle.std.specs.Prelude.{◌≡◌};
ghost use Rattle.sve_formal.specs.Formals.{is_local_keyword, keyword_after};

use sve_tree::{Mark, ParameterKeyword};

/// A parameter of a module or an interface, as its text tells it.
#[derive(Clone, Copy, PartialEq, Eq)]
pub struct Formal {
    /// The number of the token of its name in its chunk.
    pub token: u32,
    /// Whether no instance may override it (IEEE 1800-2017, 6.20.4): it is a `localparam`, or a `parameter` of a body whose header has
    /// a list of parameters (6.20.1).
    pub is_local: bool,
    /// Whether a value is written for it. Without one it stands in the list of a header (6.20.1).
    pub has_value: bool,
}

/// Whether a keyword makes parameters that no instance may override (IEEE 1800-2017, 6.20.4).
pub fn is_local_keyword(keyword: ParameterKeyword) -> bool
    ensures { result ≡ is_local_keyword keyword }
{
    match keyword {
        ParameterKeyword::Parameter => false,
        ParameterKeyword::Localparam => true,
    }
}

/// The keyword in force at a parameter of a header: its own, or that of the one before it (A.2.1.1).
pub fn keyword_after(
    before: ParameterKeyword,
    keyword: Option<Mark<ParameterKeyword>>,
) -> ParameterKeyword
    ensures { result ≡ keyword_after before keyword }
{
    match keyword {
        Some(mark) => mark.kind,
        None => before,
    }
}
