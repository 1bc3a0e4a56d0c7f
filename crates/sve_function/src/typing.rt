use crate::functions::with_function;
use std::alloc::Global;
use sve_bytes::NoMemory;
use sve_contents::Contents;
use sve_declare::{with_parameters, with_typedef};
use sve_known::Known;
use sve_package::Typing;
use sve_scoped::Text;
use sve_table::Table;
use sve_tree::{Func, Parameters, Typedef, Word};

/// Reads declarations by their constants: each over what those in front of it left, and over the packages that are known.
#[derive(Clone, Copy)]
pub struct Constants;

impl Typing for Constants {
    ghost use Rattle.sve_function.specs.Readings.{readings};

    ghost reads = { λ _. readings };

    fn parameters(
        &self,
        alloc: Global,
        packages: &Table<Known>,
        words: &[Word],
        contents: Contents,
        declaration: &Parameters,
    ) -> Result<Contents, NoMemory> {
        with_parameters(alloc, Text { packages, words }, contents, declaration)
    }

    fn typedef(
        &self,
        alloc: Global,
        packages: &Table<Known>,
        words: &[Word],
        contents: Contents,
        declaration: &Typedef,
    ) -> Result<Contents, NoMemory> {
        with_typedef(alloc, Text { packages, words }, contents, declaration)
    }

    fn function(
        &self,
        alloc: Global,
        packages: &Table<Known>,
        words: &[Word],
        contents: Contents,
        function: &Func,
    ) -> Result<Contents, NoMemory> {
        with_function(alloc, Text { packages, words }, contents, function)
    }
}
