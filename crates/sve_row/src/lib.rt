//! Rows of tables, as the programs of tests read and write them: lines with their answers, and fields of bytes, words and
//! values.
#![tactic(auto)]

mod fields;
mod kinds;
mod spelling;
mod table;
mod value;

pub use fields::{
    add_number, beside, field, fields_of, integer_of, name_of, net_type_name, number_of, offset_of,
    parts_of, word, words_of, yes,
};
pub use kinds::add_kind;
pub use spelling::{decoded, spell};
pub use table::{Lines, Table, answer_lines, write_line, write_lines};
pub use value::{value_of, width_of};
