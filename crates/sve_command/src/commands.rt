use sve_bytes::List;
use sve_text::{Edit, Mode};

/// The greatest budget of an ask (own).
pub const MAX_BUDGET: u64 = 100_000_000;

/// What an ask may ask for: one for each word that may stand under `ask`.
#[derive(Clone, Copy)]
pub enum QueryKind {
    /// `file`
    File,
    /// `expand`
    Expand,
    /// `tops`
    Tops,
    /// `instance`
    Instance,
    /// `tree`
    Tree,
    /// `type`
    TypeOf,
    /// `param`
    Param,
    /// `resolve`
    Resolve,
    /// `diagnostics`
    Diagnostics,
}

/// What is asked of one revision. Names and paths are the bytes of strings, and may be those of nothing.
#[derive(Drop)]
pub enum Query {
    /// The text of the file of this name.
    File { name: List<u8> },
    /// The expanded text of the file of this name, as the preprocessor leaves it (IEEE 1800-2017, 22). Any file may be
    /// asked for.
    Expand { name: List<u8> },
    /// The modules that no module instantiates (IEEE 1800-2017, 23.3.1).
    Tops,
    /// The module, the parameters, the ports and the children of the instance at this path (IEEE 1800-2017, 23.3).
    Instance { path: List<u8> },
    /// All instances, each before its children (IEEE 1800-2017, 23.6).
    Tree,
    /// The type of what this name means in the scope at this path (IEEE 1800-2017, 6).
    TypeOf { path: List<u8>, name: List<u8> },
    /// The value of the parameter that this name means in the scope at this path (IEEE 1800-2017, 6.20).
    Param { path: List<u8>, name: List<u8> },
    /// What this name, plain or hierarchical, means in the scope at this path (IEEE 1800-2017, 23.8).
    Resolve { path: List<u8>, name: List<u8> },
    /// All that is wrong with the design.
    Diagnostics,
}

/// One command of a client.
#[derive(Drop)]
pub enum Command {
    /// Makes the next revision by these edits, all of them or none.
    Commit(List<Edit>),
    /// Asks the query. The budget is a count of steps of elaboration, from 1 to [`MAX_BUDGET`]; where there is none, the
    /// run's budget counts.
    Ask {
        query: Query,
        mode: Mode,
        budget: Option<u32>,
    },
}
