use sve_diag::{Diag, Note};
use sve_front::Unit;
use sve_known::Known;
use sve_table::Table;

/// What was read of the files of a design, and what there is to say of it.
#[derive(Clone, Copy)]
pub struct Readings<'a> {
    /// Its units.
    pub units: &'a Table<Unit>,
    /// What there is to say of their texts: of their expansions, and of the chunks that the grammar refuses.
    pub texts: &'a [Diag],
    /// The notes of the index of their elements.
    pub index: &'a [Note],
    /// Its packages, each with its notes.
    pub packages: &'a Table<Known>,
}
