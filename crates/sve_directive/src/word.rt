ghost use Rattle.std.specs.Prelude.{◌≡◌};
ghost use Rattle.sve_directive.specs.Words.{word_of, macro_word, conditional_word, file_word, other_word, is_conditional};

/// What the name after a backtick asks for.
#[derive(Clone, Copy)]
pub enum Word {
    /// `define`.
    Defining,
    /// `undef`.
    Undefining,
    /// `undefineall`.
    UndefiningAll,
    /// A directive of conditional compilation that asks for a macro.
    Testing(Test),
    /// `else`.
    Otherwise,
    /// `endif`.
    EndOfIf,
    /// `include`.
    Including,
    /// `default_nettype`.
    NetTyping,
    /// `resetall`.
    Resetting,
    /// `__FILE__`.
    FileName,
    /// `__LINE__`.
    LineNumber,
    /// `timescale`, `line` or `pragma`, which take the rest of their line.
    RestOfLine,
    /// `celldefine`, `endcelldefine` or `nounconnected_drive`, which have no part.
    Alone,
    /// `unconnected_drive`.
    Pulling,
    /// `begin_keywords` or `end_keywords`.
    KeywordSet,
    /// The name of no directive.
    NoDirective,
}

/// The directives of conditional compilation that ask for a macro.
#[derive(Clone, Copy)]
pub enum Test {
    /// `ifdef`.
    IfDefined,
    /// `ifndef`.
    IfNotDefined,
    /// `elsif`.
    ElseIfDefined,
}

fn other(name: &[u8]) -> Word
    ensures { result ≡ other_word name.now Word.NoDirective }
{
    if name == b"timescale".as_slice() {
        Word::RestOfLine
    } else if name == b"line".as_slice() {
        Word::RestOfLine
    } else if name == b"pragma".as_slice() {
        Word::RestOfLine
    } else if name == b"celldefine".as_slice() {
        Word::Alone
    } else if name == b"endcelldefine".as_slice() {
        Word::Alone
    } else if name == b"nounconnected_drive".as_slice() {
        Word::Alone
    } else if name == b"unconnected_drive".as_slice() {
        Word::Pulling
    } else if name == b"begin_keywords".as_slice() {
        Word::KeywordSet
    } else if name == b"end_keywords".as_slice() {
        Word::KeywordSet
    } else {
        Word::NoDirective
    }
}

fn of_file(name: &[u8]) -> Word
    ensures { result ≡ file_word name.now (other_word name.now Word.NoDirective) }
{
    if name == b"include".as_slice() {
        Word::Including
    } else if name == b"default_nettype".as_slice() {
        Word::NetTyping
    } else if name == b"resetall".as_slice() {
        Word::Resetting
    } else if name == b"__FILE__".as_slice() {
        Word::FileName
    } else if name == b"__LINE__".as_slice() {
        Word::LineNumber
    } else {
        other(name)
    }
}

fn of_condition(name: &[u8]) -> Word
    ensures { result ≡ conditional_word name.now (file_word name.now (other_word name.now Word.NoDirective)) }
{
    if name == b"ifdef".as_slice() {
        Word::Testing(Test::IfDefined)
    } else if name == b"ifndef".as_slice() {
        Word::Testing(Test::IfNotDefined)
    } else if name == b"elsif".as_slice() {
        Word::Testing(Test::ElseIfDefined)
    } else if name == b"else".as_slice() {
        Word::Otherwise
    } else if name == b"endif".as_slice() {
        Word::EndOfIf
    } else {
        of_file(name)
    }
}

/// What a name asks for.
#[tactic(auto, unfolding(crate::specs::Words::word_of))]
pub fn find_word(name: &[u8]) -> Word
    ensures { result ≡ word_of name.now }
{
    if name == b"define".as_slice() {
        Word::Defining
    } else if name == b"undef".as_slice() {
        Word::Undefining
    } else if name == b"undefineall".as_slice() {
        Word::UndefiningAll
    } else {
        of_condition(name)
    }
}
