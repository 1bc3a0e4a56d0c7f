ghost use Rattle.std.specs.Prelude.{◌≡◌, ◌++◌, OnOk};
ghost use Rattle.std.specs.List.{flat_map, fold};
ghost use Rattle.sve_use.specs.Uses.{uses, uses_of_selects};
ghost use Rattle.sve_use.specs.LeftSides.{left_side_uses};
ghost use Rattle.sve_simple_use.specs.Simple.{call_use, change_uses, for_step_uses, front_uses, name_statement_uses, optional_argument_uses, optional_uses, simple_uses, tail_uses, target_uses};

use sve_bytes::NoMemory;
use sve_tree::{
    ArgumentList, Change, ConcatenationAssignment, Expr, ForStep, LeftSide, NameStatement,
    ScopedName, Select, StatementTail, Stmt,
};
use sve_use::{
    Resolver, names_in, names_in_arguments, names_in_left_side, names_in_selected, names_in_selects,
};

/// A name with selects that is assigned to, and then the names in these.
#[tactic(auto, using(std::proofs::lemmas::Grind::common_steps))]
fn names_in_target<R: Resolver>(
    name: ScopedName,
    selects: &Vec<Select>,
    names: &mut R,
) -> Result<(), NoMemory>
    ensures { OnOk result (names.new ≡ fold R.after names.old (target_uses name selects.now)) }
{
    match name.scope {
        None => names_in_selected(name.name, selects, names),
        Some(_) => {
            names.named(name)?;
            names_in_selects(selects, names)
        }
    }
}

/// A name with selects that is called, and then the names in these.
#[tactic(auto, using(std::proofs::lemmas::Grind::common_steps))]
fn names_in_called<R: Resolver>(
    name: ScopedName,
    selects: &Vec<Select>,
    names: &mut R,
) -> Result<(), NoMemory>
    ensures { OnOk result (names.new ≡ fold R.after (R.after names.old (call_use name selects.now.items)) (uses_of_selects selects.now)) }
{
    match selects.first() {
        Some(_) => names_in_target(name, selects, names),
        None => {
            names.called(name)?;
            names_in_selects(selects, names)
        }
    }
}

/// The name at the front of a statement, and then the names in its selects.
fn names_in_front<R: Resolver>(statement: &NameStatement, names: &mut R) -> Result<(), NoMemory>
    ensures { OnOk result (names.new ≡ fold R.after names.old (front_uses statement.now)) }
{
    match &statement.tail {
        StatementTail::Call { .. } => names_in_called(statement.name, &statement.selects, names),
        StatementTail::Assign { .. } => names_in_target(statement.name, &statement.selects, names),
        StatementTail::Step { .. } => names_in_target(statement.name, &statement.selects, names),
    }
}

/// The names in what is done with the name at the front of a statement.
fn names_in_tail<R: Resolver>(tail: &StatementTail, names: &mut R) -> Result<(), NoMemory>
    ensures { OnOk result (names.new ≡ fold R.after names.old (tail_uses tail.now)) }
{
    match tail {
        StatementTail::Assign { value, .. } => names_in(value, names),
        StatementTail::Step { .. } => Ok(()),
        StatementTail::Call { arguments } => names_in_arguments(arguments, names),
    }
}

/// The names in a statement that begins with a name, in the order of the text: that name, those in its selects, and those in what is
/// done with it (IEEE 1800-2017, 10.4 and 13.5).
///
/// # Errors
/// For want of memory alone.
#[tactic(auto, using(std::proofs::lemmas::Grind::common_steps))]
pub fn names_in_name_statement<R: Resolver>(
    statement: &NameStatement,
    names: &mut R,
) -> Result<(), NoMemory>
    ensures { OnOk result (names.new ≡ fold R.after names.old (name_statement_uses statement.now)) }
{
    names_in_front(statement, names)?;
    names_in_tail(&statement.tail, names)
}

/// The names in an expression, where there is one.
///
/// # Errors
/// For want of memory alone.
pub fn names_in_optional<R: Resolver>(
    expr: &Option<Box<Expr>>,
    names: &mut R,
) -> Result<(), NoMemory>
    ensures { OnOk result (names.new ≡ fold R.after names.old (optional_uses expr.now)) }
{
    match expr {
        Some(expr) => names_in(expr, names),
        None => Ok(()),
    }
}

/// The names in arguments, where there are any.
fn names_in_optional_arguments<R: Resolver>(
    arguments: &Option<ArgumentList>,
    names: &mut R,
) -> Result<(), NoMemory>
    ensures { OnOk result (names.new ≡ fold R.after names.old (optional_argument_uses arguments.now)) }
{
    match arguments {
        Some(arguments) => names_in_arguments(arguments, names),
        None => Ok(()),
    }
}

/// The names in left sides.
#[tactic(auto, using(sve_use::proofs::Sides::side_step, sve_use::proofs::Sides::side_end, std::proofs::lemmas::Grind::common_steps))]
fn names_in_sides<R: Resolver>(sides: &[LeftSide], names: &mut R) -> Result<(), NoMemory>
    ensures { OnOk result (names.new ≡ fold R.after names.old (flat_map left_side_uses sides.now)) }
{
    'sides: for side in sides {
        names_in_left_side(side, names)?;
    }
    Ok(())
}

/// The names in an assignment to several left sides.
#[tactic(auto, using(std::proofs::lemmas::Grind::common_steps))]
fn names_in_concatenation<R: Resolver>(
    assignment: &ConcatenationAssignment,
    names: &mut R,
) -> Result<(), NoMemory>
    ensures { OnOk result (names.new ≡ fold R.after names.old (flat_map left_side_uses assignment.now.left.sides.items.items ++ uses assignment.now.value.value)) }
{
    names_in_sides(assignment.left.sides.as_slice(), names)?;
    names_in(&assignment.value, names)
}

/// The names in a statement in which no statement stands, in the order of the text (IEEE 1800-2017, 10.4, 12.8 and 13.5); in any other
/// none.
///
/// # Errors
/// For want of memory alone.
pub fn names_in_simple<R: Resolver>(statement: &Stmt, names: &mut R) -> Result<(), NoMemory>
    ensures { OnOk result (names.new ≡ fold R.after names.old (simple_uses statement.now)) }
{
    match statement {
        Stmt::Return { statement } => names_in_optional(&statement.value, names),
        Stmt::SystemTask { task } => names_in_optional_arguments(&task.arguments, names),
        Stmt::VoidCall { call } => names_in(&call.cast.value.value, names),
        Stmt::Step { statement } => names_in_selected(statement.name, &statement.selects, names),
        Stmt::Concatenation { assignment } => names_in_concatenation(assignment, names),
        Stmt::Name { statement } => names_in_name_statement(statement, names),
        Stmt::Empty { .. } | Stmt::Break { .. } | Stmt::Continue { .. } => Ok(()),
        Stmt::Block { .. } | Stmt::If { .. } | Stmt::Case { .. } => Ok(()),
        Stmt::For { .. } | Stmt::Foreach { .. } => Ok(()),
        Stmt::Loop { .. } | Stmt::Do { .. } => Ok(()),
    }
}

/// The names in how a name is changed.
fn names_in_change<R: Resolver>(change: &Change, names: &mut R) -> Result<(), NoMemory>
    ensures { OnOk result (names.new ≡ fold R.after names.old (change_uses change.now)) }
{
    match change {
        Change::Assign { value, .. } => names_in(value, names),
        Change::Step { .. } => Ok(()),
    }
}

/// The names in a step of a `for`.
#[tactic(auto, using(std::proofs::lemmas::Grind::common_steps))]
fn names_in_for_step<R: Resolver>(step: &ForStep, names: &mut R) -> Result<(), NoMemory>
    ensures { OnOk result (names.new ≡ fold R.after names.old (for_step_uses step.now)) }
{
    match step {
        ForStep::Before { name, selects, .. } => names_in_selected(*name, selects, names),
        ForStep::Change {
            name,
            selects,
            change,
        } => {
            names_in_selected(*name, selects, names)?;
            names_in_change(change, names)
        }
    }
}

/// The names in the steps of a `for` (12.7.1).
///
/// # Errors
/// For want of memory alone.
#[tactic(auto, using(crate::proofs::Rows::for_step_step, crate::proofs::Rows::for_step_end, std::proofs::lemmas::Grind::common_steps))]
pub fn names_in_for_steps<R: Resolver>(steps: &[ForStep], names: &mut R) -> Result<(), NoMemory>
    ensures { OnOk result (names.new ≡ fold R.after names.old (flat_map for_step_uses steps.now)) }
{
    'steps: for step in steps {
        names_in_for_step(step, names)?;
    }
    Ok(())
}

/// The names in the first assignment of a `for` that declares nothing (12.7.1).
///
/// # Errors
/// For want of memory alone.
#[tactic(auto, using(std::proofs::lemmas::Grind::common_steps))]
pub fn names_in_first_assignment<R: Resolver>(
    name: ScopedName,
    selects: &Vec<Select>,
    value: &Expr,
    names: &mut R,
) -> Result<(), NoMemory>
    ensures { OnOk result (names.new ≡ fold R.after names.old (target_uses name selects.now ++ uses value.now)) }
{
    names_in_target(name, selects, names)?;
    names_in(value, names)
}

/// The names in expressions, one after another.
///
/// # Errors
/// For want of memory alone.
#[tactic(auto, using(sve_use::proofs::Rows::expression_step, sve_use::proofs::Rows::expression_end, std::proofs::lemmas::Grind::common_steps))]
pub fn names_in_each<R: Resolver>(expressions: &[Expr], names: &mut R) -> Result<(), NoMemory>
    ensures { OnOk result (names.new ≡ fold R.after names.old (flat_map uses expressions.now)) }
{
    'expressions: for expression in expressions {
        names_in(expression, names)?;
    }
    Ok(())
}
