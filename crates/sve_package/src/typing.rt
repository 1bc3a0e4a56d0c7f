use std::alloc::Global;
use sve_bytes::NoMemory;
use sve_contents::Contents;
use sve_known::Known;
use sve_table::Table;
use sve_tree::{Func, Parameters, Typedef, Word};

/// What declarations whose types and values are constants make of a scope. Packages and compilation units are read over any such
/// object, so that the order of their items and what they import are proved apart from constants and types.
pub trait Typing {
    ghost use Rattle.std.specs.Prelude.{◌≡◌, IfOk};
    ghost use Rattle.sve_package.specs.Readings.{Readings};

    // What each kind of declaration makes of a scope.
    ghost reads: { Self → Readings };

    /// Declares parameters (IEEE 1800-2017, 6.20). The words are those of the chunk.
    ///
    /// # Errors
    /// For want of memory alone.
    fn parameters(
        &self,
        alloc: Global,
        packages: &Table<Known>,
        words: &[Word],
        contents: Contents,
        declaration: &Parameters,
    ) -> Result<Contents, NoMemory>
        ensures { IfOk result (λ c. c ≡ (reads self.now).parameters packages.now words.now contents declaration.now) };

    /// Declares a type, and the names of its enumerations (6.18 and 6.19).
    ///
    /// # Errors
    /// For want of memory alone.
    fn typedef(
        &self,
        alloc: Global,
        packages: &Table<Known>,
        words: &[Word],
        contents: Contents,
        declaration: &Typedef,
    ) -> Result<Contents, NoMemory>
        ensures { IfOk result (λ c. c ≡ (reads self.now).typedef packages.now words.now contents declaration.now) };

    /// Declares a function (13.4).
    ///
    /// # Errors
    /// For want of memory alone.
    fn function(
        &self,
        alloc: Global,
        packages: &Table<Known>,
        words: &[Word],
        contents: Contents,
        function: &Func,
    ) -> Result<Contents, NoMemory>
        ensures { IfOk result (λ c. c ≡ (reads self.now).function packages.now words.now contents function.now) };
}
