/// What a line asks to be read: a symbol of the grammar that has a parser.
#[derive(Clone, Copy)]
pub enum Part {
    /// An expression (IEEE 1800-2017, A.8.3).
    Expression,
    /// A name with its type, which may be left out (A.2.2.1).
    DeclaredType,
    /// A data type that begins with a keyword (A.2.2.1).
    DataType,
    /// Any type by itself (A.2.2.1).
    TypeReference,
    /// The header of a module or an interface (A.1.2).
    Header,
    /// A declaration of parameters (A.2.1.1).
    Parameters,
    /// A declaration of a type (A.2.1.3).
    Typedef,
    /// A declaration of imports (A.2.1.3).
    Import,
    /// A modport with its members (A.2.9).
    Modport,
}

/// The part that a word at the head of a line names.
pub fn part_named(word: &str) -> Option<Part> {
    let table = [
        ("expr", Part::Expression),
        ("type", Part::DeclaredType),
        ("data", Part::DataType),
        ("reference", Part::TypeReference),
        ("header", Part::Header),
        ("param", Part::Parameters),
        ("typedef", Part::Typedef),
        ("import", Part::Import),
        ("modport", Part::Modport),
    ];
    for (name, part) in table {
        if name == word {
            return Some(part);
        }
    }
    None
}
