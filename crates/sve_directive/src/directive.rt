use sve_bytes::{List, Name, NetType};
use sve_macro::Macro;

/// What a backtick begins: a compiler directive with its parts, or a use of a macro (IEEE
/// 1800-2017, clause 22).
#[derive(Drop)]
pub enum Directive {
    /// `` `include `` with the bytes between the quotes, or between `<` and `>` (22.4): any but a
    /// line feed, perhaps none.
    Include(List<u8>),
    /// Any other, which needs no other file.
    Local(LocalDirective),
}

/// A directive that needs no other file, or a use of a macro.
#[derive(Drop)]
pub enum LocalDirective {
    /// A directive of conditional compilation (22.6).
    Conditional(Conditional),
    /// A directive that changes which macros are defined (22.5).
    Macros(MacroDirective),
    /// `` `default_nettype `` sets the type of implicit nets (22.8), and `` `resetall `` sets it to
    /// `wire` (22.3).
    NetType(NetType),
    /// A directive that stands for a text (22.13).
    Text(SourceText),
    /// A directive that changes nothing here: `` `timescale ``, `` `line `` and `` `pragma `` with
    /// the rest of their line (22.7, 22.12, 22.11), `` `celldefine `` and `` `endcelldefine ``
    /// (22.10), `` `unconnected_drive `` and `` `nounconnected_drive `` (22.9).
    Ignored,
    /// A use of the macro of this name: the backtick and the name, without a list of actuals
    /// (22.5.1).
    Use(Name),
    /// What is reported and dropped.
    Refused(Refusal),
}

/// A directive of conditional compilation (22.6).
#[derive(Drop)]
pub enum Conditional {
    /// `` `ifdef `` asks whether a macro of this name is defined.
    Ifdef(MacroName),
    /// `` `ifndef `` asks whether none is.
    Ifndef(MacroName),
    /// `` `elsif `` asks whether one is, where nothing before it was taken.
    Elsif(MacroName),
    /// `` `else ``.
    Else,
    /// `` `endif ``.
    Endif,
}

/// A directive that changes which macros are defined (22.5).
#[derive(Drop)]
pub enum MacroDirective {
    /// `` `define `` gives a name a macro (22.5.1).
    Define {
        /// The macro's name.
        name: Name,
        /// Its formals and its text.
        definition: Macro,
    },
    /// `` `undef `` takes the macro of a name away (22.5.2).
    Undef(MacroName),
    /// `` `undefineall `` takes all macros away (22.5.3).
    UndefineAll,
}

/// The name of a macro in a directive that asks for it.
#[derive(Drop)]
pub enum MacroName {
    /// A name of 1 to 1,024 bytes.
    Name(Name),
    /// More bytes than a name may have: no macro is defined by it.
    TooLong,
}

/// A text for which a directive stands (22.13).
#[derive(Clone, Copy)]
pub enum SourceText {
    /// The name of the file.
    File,
    /// The number of the line.
    Line,
}

/// What is reported and dropped.
#[derive(Drop)]
pub enum Refusal {
    /// `` `begin_keywords `` or `` `end_keywords ``, by its name, with the rest of the line
    /// (22.14); this profile has one set of keywords.
    Keywords(Name),
    /// A directive of this name that is not of its form, or a backtick without a name: a definition
    /// with all its lines, any other with the rest of its line.
    Malformed(Option<Name>),
    /// A use of a name above 1,024 bytes, which no macro can have: its first 1,024.
    LongUse(Name),
}
