//! How the words of statements and items are spelled that say which of several things is meant.
use sve_show::Writer;
use sve_tree::{
    AssignmentOperator, CaseKeyword, ClockedKeyword, Edge, Label, LoopKeyword, Mark, ModuleKeyword,
    PlainKeyword, StepOperator, Uniqueness,
};

/// Writes an assignment's operator.
pub fn write_assignment_operator(w: &mut Writer<'_>, mark: &Mark<AssignmentOperator>) {
    let spelling = match mark.kind {
        AssignmentOperator::Assign => "=",
        AssignmentOperator::Nonblocking => "<=",
        AssignmentOperator::Plus => "+=",
        AssignmentOperator::Minus => "-=",
        AssignmentOperator::Times => "*=",
        AssignmentOperator::Divide => "/=",
        AssignmentOperator::Remainder => "%=",
        AssignmentOperator::And => "&=",
        AssignmentOperator::Or => "|=",
        AssignmentOperator::Xor => "^=",
        AssignmentOperator::LogicalShiftLeft => "<<=",
        AssignmentOperator::LogicalShiftRight => ">>=",
        AssignmentOperator::ArithmeticShiftLeft => "<<<=",
        AssignmentOperator::ArithmeticShiftRight => ">>>=",
    };
    w.spelled(mark.token, spelling)
}

/// Writes an operator that counts up or down.
pub fn write_step_operator(w: &mut Writer<'_>, mark: &Mark<StepOperator>) {
    let spelling = match mark.kind {
        StepOperator::Increment => "++",
        StepOperator::Decrement => "--",
    };
    w.spelled(mark.token, spelling)
}

/// Writes `unique`, `unique0` or `priority` and a blank, where one of them is written.
pub fn write_uniqueness(w: &mut Writer<'_>, mark: &Option<Mark<Uniqueness>>) {
    if let Some(mark) = mark {
        let spelling = match mark.kind {
            Uniqueness::Unique => "unique",
            Uniqueness::Unique0 => "unique0",
            Uniqueness::Priority => "priority",
        };
        w.spelled(mark.token, spelling);
        w.blank();
    }
}

/// Writes the keyword of a case statement and a blank.
pub fn write_case_keyword(w: &mut Writer<'_>, mark: &Mark<CaseKeyword>) {
    let spelling = match mark.kind {
        CaseKeyword::Case => "case",
        CaseKeyword::Casez => "casez",
        CaseKeyword::Casex => "casex",
    };
    w.spelled(mark.token, spelling);
    w.blank()
}

/// Writes the keyword of a loop and a blank.
pub fn write_loop_keyword(w: &mut Writer<'_>, mark: &Mark<LoopKeyword>) {
    let spelling = match mark.kind {
        LoopKeyword::While => "while",
        LoopKeyword::Repeat => "repeat",
    };
    w.spelled(mark.token, spelling);
    w.blank()
}

/// Writes the keyword of a procedure with an event control, and a blank.
pub fn write_clocked_keyword(w: &mut Writer<'_>, mark: &Mark<ClockedKeyword>) {
    let spelling = match mark.kind {
        ClockedKeyword::Always => "always",
        ClockedKeyword::AlwaysFf => "always_ff",
    };
    w.spelled(mark.token, spelling);
    w.blank()
}

/// Writes the keyword of a procedure without an event control, and a blank.
pub fn write_plain_keyword(w: &mut Writer<'_>, mark: &Mark<PlainKeyword>) {
    let spelling = match mark.kind {
        PlainKeyword::AlwaysComb => "always_comb",
        PlainKeyword::AlwaysLatch => "always_latch",
        PlainKeyword::Initial => "initial",
    };
    w.spelled(mark.token, spelling);
    w.blank()
}

/// Writes an edge and a blank, where one is written.
pub fn write_edge(w: &mut Writer<'_>, mark: &Option<Mark<Edge>>) {
    if let Some(mark) = mark {
        let spelling = match mark.kind {
            Edge::Posedge => "posedge",
            Edge::Negedge => "negedge",
            Edge::Edge => "edge",
        };
        w.spelled(mark.token, spelling);
        w.blank();
    }
}

/// Writes the keyword of a module and a blank.
pub fn write_module_keyword(w: &mut Writer<'_>, mark: &Mark<ModuleKeyword>) {
    let spelling = match mark.kind {
        ModuleKeyword::Module => "module",
        ModuleKeyword::Macromodule => "macromodule",
    };
    w.spelled(mark.token, spelling);
    w.blank()
}

/// Writes the label behind `begin` or an end word, where there is one.
pub fn write_label(w: &mut Writer<'_>, label: &Option<Label>) {
    if let Some(label) = label {
        w.blank();
        w.token_apart(label.colon);
        w.token(label.name);
    }
}
