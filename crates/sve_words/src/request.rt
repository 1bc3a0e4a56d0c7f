/// The options of a run.
#[derive(Clone, Copy, PartialEq, Eq)]
pub struct Options {
    /// The budget of asks that give none, in steps of elaboration, from 1 to 100,000,000, where it is said.
    pub budget: Option<u32>,
    /// Whether the clients run one after another.
    pub serial: bool,
    /// Whether lint rules are shown the design of the last revision.
    pub lint: bool,
}

/// What the words of the command line ask for.
#[derive(Clone, Copy, PartialEq, Eq)]
pub enum Spoken {
    /// A run with these options.
    Run(Options),
    /// The generated session of so many modules, from 1 to 2,000.
    Make(u32),
    /// Nothing: they are of no stated form.
    Usage,
}
