//! Functions, and the statements of procedures.
ghost use Rattle.std.specs.Prelude.{◌≡◌, IfOk};
ghost use Rattle.std.specs.List.{fold};
ghost use Rattle.sve_fault.specs.Counts.{IsFuel};
ghost use Rattle.sve_statement_use.specs.Statements.{statement_steps};
ghost use Rattle.sve_plan.specs.Follows.{Meters};
ghost use Rattle.sve_scoped.specs.Known.{told_in};
ghost use Rattle.sve_used.specs.Used.{name_used};
ghost use Rattle.sve_local.specs.Steps.{stepped_in};
ghost use Rattle.sve_function.specs.Functions.{with_function};
ghost use Rattle.sve_counted_item.specs.Counted.{counted_function, counted_statement};

use std::alloc::Global;
use sve_bytes::NoMemory;
use sve_contents::Contents;
use sve_count::{count_function, count_statement};
use sve_fault::{Fuel, Halted};
use sve_function::Constants;
use sve_local::Within;
use sve_package::Typing;
use sve_scoped::{Text, around};
use sve_statement_use::names_in_statement;
use sve_tree::{Func, Stmt};

/// What a function leaves, by its constants.
fn with_function(
    alloc: Global,
    text: Text<'_>,
    contents: Contents,
    function: &Func,
) -> Result<Contents, NoMemory>
    ensures { IfOk result (λ c. c ≡ with_function (told_in text.entry.packages.now text.entry.words.now) (name_used text.entry.packages.now text.entry.words.now) text.entry.words.now contents function.now) }
{
    Constants.function(alloc, text.packages, text.words, contents, function)
}

/// What a function leaves in a scope (IEEE 1800-2017, 13.4), once the nodes of the types of its result and of its formal arguments, and
/// those of what its body declares, are counted.
///
/// # Errors
/// `Over` exactly where the nodes pass the most that may be evaluated, and `NoMemory`.
#[tactic(auto, unfolding(crate::specs::Counted::counted_function))]
pub fn function_in(
    alloc: Global,
    text: Text<'_>,
    contents: Contents,
    function: &Func,
    fuel: &mut Fuel,
) -> Result<Contents, Halted>
    requires { IsFuel fuel.old }
    ensures { Meters fuel.old fuel.new (counted_function text.entry.packages.now text.entry.words.now contents function.now) result }
{
    count_function(function, &around(alloc, text, &contents), fuel)?;
    Ok(with_function(alloc, text, contents, function)?)
}

/// What a statement leaves in a scope: the names that it uses are resolved there, and scopes open and close in it.
#[tactic(auto, using(sve_local::proofs::Folds::all_steps))]
fn with_statement(
    alloc: Global,
    text: Text<'_>,
    contents: Contents,
    statement: &Stmt,
) -> Result<Contents, NoMemory>
    ensures { IfOk result (λ c. c ≡ fold (stepped_in text.entry.packages.now text.entry.words.now) contents (statement_steps statement.now)) }
{
    let mut within = Within {
        alloc,
        text,
        contents,
    };
    names_in_statement(statement, &mut within)?;
    let Within {
        alloc: _,
        text: _,
        contents,
    } = within;
    Ok(contents)
}

/// What a statement of a procedure leaves in the scope in which the procedure stands (IEEE 1800-2017, 9.2), once the nodes of what it
/// declares are counted.
///
/// # Errors
/// `Over` exactly where the nodes pass the most that may be evaluated, and `NoMemory`.
pub fn statement_in(
    alloc: Global,
    text: Text<'_>,
    contents: Contents,
    statement: &Stmt,
    fuel: &mut Fuel,
) -> Result<Contents, Halted>
    requires { IsFuel fuel.old }
    ensures { Meters fuel.old fuel.new (counted_statement text.entry.packages.now text.entry.words.now contents statement.now) result }
{
    count_statement(statement, &around(alloc, text, &contents), fuel)?;
    Ok(with_statement(alloc, text, contents, statement)?)
}
