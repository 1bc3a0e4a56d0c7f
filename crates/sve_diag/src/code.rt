ghost use Rattle.std.specs.Prelude.{◌≡◌};
ghost use Rattle.sve_diag.specs.CodeText.{code_text};

/// What a diagnostic says. A clause in brackets is one of IEEE 1800-2017. A code is spelled as its name, a letter for
/// the part of the work that finds it and two digits: P preprocessing, S syntax, N names, C constants, E elaboration.
#[derive(Clone, Copy)]
pub enum Code {
    /// A directive that is not of its form, or a backtick without a name (IEEE 1800-2017, 22). Argument: the name, if
    /// there is one.
    P01,
    /// A macro that is not defined (22.5.1). Argument: its name.
    P02,
    /// A directive that changes the keywords, which this profile leaves out (22.14). Argument: its name.
    P03,
    /// A macro used with a wrong number of actuals or without its list (22.5.1). Argument: its name.
    P04,
    /// A list of actuals that does not end (22.5.1). Argument: the name of the macro.
    P05,
    /// A macro used inside its own expansion (22.5.1). Argument: its name.
    P06,
    /// Macros nested too deep (own). Argument: the name of the innermost.
    P07,
    /// An included file that is not there (22.4). Argument: its name.
    P08,
    /// Includes nested too deep (22.4). Argument: the name of the file.
    P09,
    /// A part of a conditional without its beginning, or after its `else` (22.6). Argument: the name of the
    /// directive.
    P10,
    /// A conditional that does not end in its text (22.6).
    P11,
    /// More work in one file than is allowed (own).
    P12,
    /// The syntax stops at bytes that are no token (5).
    S01,
    /// The syntax stops at a token (Annex A). Argument: the token or its class.
    S02,
    /// The syntax is nested too deep (own).
    S03,
    /// A label after an end word that is not the name of what ends (23.2.1). Argument: the label.
    S04,
    /// A name that is not declared before its use (6.5). Argument: the name.
    N01,
    /// A name declared twice in one scope (3.13). Argument: the name.
    N02,
    /// A module, an interface or a package defined twice (3.13). Argument: its name.
    N03,
    /// A package that is not there (26.3). Argument: its name.
    N04,
    /// A name that its package does not have (26.3). Argument: the name.
    N05,
    /// A name that two wildcard imports offer (26.3). Argument: the name.
    N06,
    /// An import and a local declaration of one name (26.3). Argument: the name.
    N07,
    /// A package that imports itself, or one that does, in the end (own). Argument: its name.
    N08,
    /// A module or an interface that is not there (23.3). Argument: its name.
    N09,
    /// A hierarchical name that is not found (23.6). Argument: its first name.
    N10,
    /// A thing of the wrong kind for its place (6.20). Argument: its name.
    N11,
    /// An expression that is no constant of this profile (11.2.1).
    C01,
    /// A based number of size 0 (5.7.1).
    C02,
    /// A constant of too many bits (own).
    C03,
    /// A number without a size in a concatenation (11.4.12).
    C04,
    /// A replication count that is negative, unknown or 0 where it may not be (11.4.12.1).
    C05,
    /// A dimension with unknown bits, or beyond the limits (7.4).
    C06,
    /// A text that is too long for its place (own).
    C07,
    /// An enum value that comes again (6.19). Argument: the name of the value.
    C08,
    /// An enum name without a value after one with unknown bits (6.19). Argument: the name.
    C09,
    /// An enum value that its base type does not hold (6.19). Argument: the name.
    C10,
    /// An override of a parameter that is not there (23.10.2). Argument: the parameter.
    E01,
    /// An override of a local parameter (6.20.4). Argument: the parameter.
    E02,
    /// More overrides than parameters (23.10.2.1).
    E03,
    /// Overrides by name and by order in one list (23.10.2).
    E04,
    /// A parameter without a value (6.20.1). Argument: the parameter.
    E05,
    /// A type that is out for its place (6.16). Argument: what has it.
    E06,
    /// A connection of a port that is not there, or of one that has one (23.3.2). Argument: the port.
    E07,
    /// More connections than ports (23.3.2.1).
    E08,
    /// An implicit connection to nothing of an equivalent type (23.3.2.3). Argument: the port.
    E09,
    /// An interface port without its interface (25.3). Argument: the port.
    E10,
    /// A modport that is not there (25.5). Argument: its name.
    E11,
    /// A member that is not there, or not in the modport (25.5). Argument: its name.
    E12,
    /// A modport outside an interface (25.5). Argument: its name.
    E13,
    /// A generate loop whose genvar is unknown or comes again (27.4). Argument: the genvar.
    E14,
    /// Generate constructs nested too deep (own).
    E15,
    /// Instances nested too deep (own). Argument: the instance.
    E16,
    /// An elaboration system task of a severity that stops (20.11). Argument: its name.
    E17,
}

impl Code {
    /// The three bytes of the code, as reports have them.
    pub fn spelling(self) -> &'static [u8]
        ensures { result.now ≡ code_text self }
    {
        match self {
            Code::P01 => b"P01",
            Code::P02 => b"P02",
            Code::P03 => b"P03",
            Code::P04 => b"P04",
            Code::P05 => b"P05",
            Code::P06 => b"P06",
            Code::P07 => b"P07",
            Code::P08 => b"P08",
            Code::P09 => b"P09",
            Code::P10 => b"P10",
            Code::P11 => b"P11",
            Code::P12 => b"P12",
            Code::S01 => b"S01",
            Code::S02 => b"S02",
            Code::S03 => b"S03",
            Code::S04 => b"S04",
            Code::N01 => b"N01",
            Code::N02 => b"N02",
            Code::N03 => b"N03",
            Code::N04 => b"N04",
            Code::N05 => b"N05",
            Code::N06 => b"N06",
            Code::N07 => b"N07",
            Code::N08 => b"N08",
            Code::N09 => b"N09",
            Code::N10 => b"N10",
            Code::N11 => b"N11",
            Code::C01 => b"C01",
            Code::C02 => b"C02",
            Code::C03 => b"C03",
            Code::C04 => b"C04",
            Code::C05 => b"C05",
            Code::C06 => b"C06",
            Code::C07 => b"C07",
            Code::C08 => b"C08",
            Code::C09 => b"C09",
            Code::C10 => b"C10",
            Code::E01 => b"E01",
            Code::E02 => b"E02",
            Code::E03 => b"E03",
            Code::E04 => b"E04",
            Code::E05 => b"E05",
            Code::E06 => b"E06",
            Code::E07 => b"E07",
            Code::E08 => b"E08",
            Code::E09 => b"E09",
            Code::E10 => b"E10",
            Code::E11 => b"E11",
            Code::E12 => b"E12",
            Code::E13 => b"E13",
            Code::E14 => b"E14",
            Code::E15 => b"E15",
            Code::E16 => b"E16",
            Code::E17 => b"E17",
        }
    }
}
