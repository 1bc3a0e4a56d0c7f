//! The names of expressions and of statements without statements, among the steps of statements.
ghost use Rattle.std.specs.Prelude.{◌≡◌, OnOk};
ghost use Rattle.std.specs.List.{flat_map, fold};
ghost use Rattle.sve_use.specs.Uses.{uses};
ghost use Rattle.sve_statement_use.specs.Steps.{happens, used};
ghost use Rattle.sve_simple_use.specs.Simple.{for_step_uses, name_statement_uses, optional_uses, simple_uses};
ghost use Rattle.sve_statement_use.specs.Statements.{for_head_steps, foreach_head_steps, initial_steps, label_uses};

use crate::scopes::Scopes;
use sve_bytes::NoMemory;
use sve_simple_use::{
    names_in_each, names_in_first_assignment, names_in_for_steps, names_in_name_statement,
    names_in_optional, names_in_simple,
};
use sve_tree::{
    Expr, ForInitialization, ForStatement, ForStep, ForeachStatement, NameStatement, Row,
    ScopedName, Stmt,
};
use sve_use::names_in;

/// An expression.
#[tactic(auto, using(crate::proofs::Folds::fold_used))]
pub(crate) fn expression<S: Scopes>(expr: &Expr, scopes: &mut S) -> Result<(), NoMemory>
    ensures { OnOk result (scopes.new ≡ fold (happens S.after S.does) scopes.old (used (uses expr.now))) }
{
    names_in(expr, scopes)
}

/// An expression, where there is one.
#[tactic(auto, using(crate::proofs::Folds::fold_used))]
fn optional<S: Scopes>(expr: &Option<Box<Expr>>, scopes: &mut S) -> Result<(), NoMemory>
    ensures { OnOk result (scopes.new ≡ fold (happens S.after S.does) scopes.old (used (optional_uses expr.now))) }
{
    names_in_optional(expr, scopes)
}

/// The labels of an item of a `case`.
#[tactic(auto, using(crate::proofs::Folds::fold_used))]
pub(crate) fn labels<S: Scopes>(row: &Row<Expr>, scopes: &mut S) -> Result<(), NoMemory>
    ensures { OnOk result (scopes.new ≡ fold (happens S.after S.does) scopes.old (label_uses row.now)) }
{
    names_in_each(row.as_slice(), scopes)
}

/// A statement in which no statement stands.
#[tactic(auto, using(crate::proofs::Folds::fold_used))]
pub(crate) fn simple<S: Scopes>(statement: &Stmt, scopes: &mut S) -> Result<(), NoMemory>
    ensures { OnOk result (scopes.new ≡ fold (happens S.after S.does) scopes.old (used (simple_uses statement.now))) }
{
    names_in_simple(statement, scopes)
}

/// A statement that begins with a name.
#[tactic(auto, using(crate::proofs::Folds::fold_used))]
pub(crate) fn name_statement<S: Scopes>(
    statement: &NameStatement,
    scopes: &mut S,
) -> Result<(), NoMemory>
    ensures { OnOk result (scopes.new ≡ fold (happens S.after S.does) scopes.old (used (name_statement_uses statement.now))) }
{
    names_in_name_statement(statement, scopes)
}

/// The steps of a `for`.
#[tactic(auto, using(crate::proofs::Folds::fold_used))]
fn for_steps<S: Scopes>(steps: &[ForStep], scopes: &mut S) -> Result<(), NoMemory>
    ensures { OnOk result (scopes.new ≡ fold (happens S.after S.does) scopes.old (used (flat_map for_step_uses steps.now))) }
{
    names_in_for_steps(steps, scopes)
}

/// What a `for` does at first.
#[tactic(auto, using(crate::proofs::Folds::fold_used))]
fn initialization<S: Scopes>(first: &ForInitialization, scopes: &mut S) -> Result<(), NoMemory>
    ensures { OnOk result (scopes.new ≡ fold (happens S.after S.does) scopes.old (initial_steps first.now)) }
{
    match first {
        ForInitialization::Declared { variables } => scopes.declare_loop(variables.as_slice()),
        ForInitialization::Assigned {
            name,
            selects,
            value,
            ..
        } => names_in_first_assignment(*name, selects, value, scopes),
        ForInitialization::NamedType {
            name,
            selects,
            declarator,
            value,
        } => scopes.declare_named_loop(*name, selects, declarator, value),
    }
}

/// The scope of a `for` begins, with what stands in its parentheses.
#[tactic(auto, using(std::proofs::lemmas::Grind::common_steps))]
pub(crate) fn for_head<S: Scopes>(statement: &ForStatement, scopes: &mut S) -> Result<(), NoMemory>
    ensures { OnOk result (scopes.new ≡ fold (happens S.after S.does) scopes.old (for_head_steps statement.now.keyword statement.now.initialization statement.now.condition statement.now.steps)) }
{
    scopes.open_scope(statement.keyword)?;
    initialization(&statement.initialization, scopes)?;
    optional(&statement.condition, scopes)?;
    for_steps(statement.steps.as_slice(), scopes)
}

/// The array of a `foreach`, and then its scope with the loop variables.
#[tactic(auto, using(std::proofs::lemmas::Grind::common_steps))]
pub(crate) fn foreach_head<S: Scopes>(
    statement: &ForeachStatement,
    scopes: &mut S,
) -> Result<(), NoMemory>
    ensures { OnOk result (scopes.new ≡ fold (happens S.after S.does) scopes.old (foreach_head_steps statement.now.keyword statement.now.array statement.now.names)) }
{
    scopes.named(ScopedName {
        scope: None,
        name: statement.array,
    })?;
    scopes.open_scope(statement.keyword)?;
    scopes.declare_indices(statement.array, statement.names.as_slice())
}
