//! The rules of items of modules and interfaces, and of a whole chunk (IEEE 1800-2017, A.1.2, A.1.4, A.4 and A.6.1). As
//! in Annex A, `[ ]` is at most one and `{ }` any number; tokens stand between backticks.

ghost use Rattle.std.specs.Prelude.{◌≡◌, true};
ghost use Rattle.sve_run.specs.Meaning.{meaning, named, is_written};
ghost use Rattle.sve_run.specs.declared.part.Sign.TheVariants as signs;

use crate::declarations::DeclarationSign;
use crate::expressions::ExpressionSign;
use crate::part::{
    Part, Sign, declaration_rule, expression_rule, first_of, item_rule, many, opt, seq,
    statement_rule, sym, tok, type_rule, word,
};
use crate::statements::StatementSign;
use crate::types::TypeSign;
use sve_grammar::Symbol;
use sve_token::{Keyword, Kind};

/// The names of these rules.
#[derive(Clone, Copy)]
pub enum ItemSign {
    GenvarDeclaration,
    NetAssignment,
    MoreNetAssignments,
    ContinuousAssign,
    Edge,
    EventExpression,
    EventSeparator,
    MoreEvents,
    EventList,
    EventControl,
    ClockedKeyword,
    ClockedProcedure,
    PlainKeyword,
    PlainProcedure,
    Items,
    GenerateRegion,
    GenerateBlock,
    GenvarIteration,
    LoopGenerate,
    ElseGenerate,
    IfGenerate,
    CaseGenerateItem,
    CaseGenerateItems,
    CaseGenerate,
    MoreModportItems,
    ModportDeclaration,
    Instance,
    MoreInstances,
    InstancesOrVariables,
    NamedItem,
    Item,
    UnitItem,
    UnitItems,
    ModuleKeyword,
    ModuleDeclaration,
    InterfaceDeclaration,
    PackageDeclaration,
    Design,
    Chunk,
}

/// genvar_declaration (A.2.1.3).
///
/// genvar_declaration : `genvar` identifier more_identifiers `;`
const GENVAR_DECLARATION: Part = seq!(
    word!(KwGenvar),
    tok!(Identifier),
    type_rule!(MoreIdentifiers),
    tok!(Semicolon)
);

/// net_assignment (A.6.1).
///
/// net_assignment : left_side `=` expression
const NET_ASSIGNMENT: Part = seq!(sym!(LeftSide), tok!(Assign), sym!(Expression));

/// more_net_assignments : { `,` net_assignment }
const MORE_NET_ASSIGNMENTS: Part = many!(seq!(tok!(Comma), item_rule!(NetAssignment)));

/// continuous_assign (A.6.1).
///
/// continuous_assign : `assign` net_assignment more_net_assignments `;`
const CONTINUOUS_ASSIGN: Part = seq!(
    word!(KwAssign),
    item_rule!(NetAssignment),
    item_rule!(MoreNetAssignments),
    tok!(Semicolon)
);

/// edge_identifier (A.7.4).
///
/// edge : `posedge` | `negedge` | `edge`
const EDGE: Part = first_of!(word!(KwPosedge), word!(KwNegedge), word!(KwEdge));

/// event_expression (A.6.5).
///
/// event_expression : [ edge ] expression
const EVENT_EXPRESSION: Part = seq!(opt!(item_rule!(Edge)), sym!(Expression));

/// event_separator : `or` | `,`
const EVENT_SEPARATOR: Part = first_of!(word!(KwOr), tok!(Comma));

/// more_events : { event_separator event_expression }
const MORE_EVENTS: Part = many!(seq!(item_rule!(EventSeparator), item_rule!(EventExpression)));

/// what @ waits for, in parentheses: everything, or events.
///
/// event_list : `*` | event_expression more_events
const EVENT_LIST: Part = first_of!(
    tok!(Star),
    seq!(item_rule!(EventExpression), item_rule!(MoreEvents))
);

/// event_control behind its @ (A.6.5).
///
/// event_control : `*` | `(` event_list `)` | identifier selects
const EVENT_CONTROL: Part = first_of!(
    tok!(Star),
    seq!(tok!(LeftParen), item_rule!(EventList), tok!(RightParen)),
    seq!(tok!(Identifier), expression_rule!(Selects))
);

/// clocked_keyword : `always` | `always_ff`
const CLOCKED_KEYWORD: Part = first_of!(word!(KwAlways), word!(KwAlwaysFf));

/// always_construct with an event control (A.6.2).
///
/// clocked_procedure : clocked_keyword `@` event_control statement
const CLOCKED_PROCEDURE: Part = seq!(
    item_rule!(ClockedKeyword),
    tok!(At),
    item_rule!(EventControl),
    sym!(Statement)
);

/// plain_keyword : `always_comb` | `always_latch` | `initial`
const PLAIN_KEYWORD: Part = first_of!(word!(KwAlwaysComb), word!(KwAlwaysLatch), word!(KwInitial));

/// always_construct without one, initial_construct (A.6.2).
///
/// plain_procedure : plain_keyword statement
const PLAIN_PROCEDURE: Part = seq!(item_rule!(PlainKeyword), sym!(Statement));

/// items : { item }
const ITEMS: Part = many!(sym!(Item));

/// generate_region (A.4.2).
///
/// generate_region : `generate` items `endgenerate`
const GENERATE_REGION: Part = seq!(word!(KwGenerate), item_rule!(Items), word!(KwEndgenerate));

/// generate_block (A.4.2).
///
/// generate_block : `begin` [ label ] items `end` [ label ] | item
const GENERATE_BLOCK: Part = first_of!(
    seq!(
        word!(KwBegin),
        opt!(declaration_rule!(Label)),
        item_rule!(Items),
        word!(KwEnd),
        opt!(declaration_rule!(Label))
    ),
    sym!(Item)
);

/// genvar_iteration (A.4.2).
///
/// genvar_iteration : increment_operator identifier | identifier assignment_or_increment
const GENVAR_ITERATION: Part = first_of!(
    seq!(statement_rule!(IncrementOperator), tok!(Identifier)),
    seq!(tok!(Identifier), statement_rule!(AssignmentOrIncrement))
);

/// loop_generate_construct (A.4.2).
///
/// loop_generate : `for` `(` [ `genvar` ] identifier `=` expression `;` expression `;` genvar_iteration `)`
/// generate_block
const LOOP_GENERATE: Part = seq!(
    word!(KwFor),
    tok!(LeftParen),
    opt!(word!(KwGenvar)),
    tok!(Identifier),
    tok!(Assign),
    sym!(Expression),
    tok!(Semicolon),
    sym!(Expression),
    tok!(Semicolon),
    item_rule!(GenvarIteration),
    tok!(RightParen),
    item_rule!(GenerateBlock)
);

/// else generate_block.
///
/// else_generate : `else` generate_block
const ELSE_GENERATE: Part = seq!(word!(KwElse), item_rule!(GenerateBlock));

/// if_generate_construct (A.4.2).
///
/// if_generate : `if` parenthesized generate_block [ else_generate ]
const IF_GENERATE: Part = seq!(
    word!(KwIf),
    expression_rule!(Parenthesized),
    item_rule!(GenerateBlock),
    opt!(item_rule!(ElseGenerate))
);

/// case_generate_item (A.4.2).
///
/// case_generate_item : `default` [ `:` ] generate_block | expression more_expressions `:` generate_block
const CASE_GENERATE_ITEM: Part = first_of!(
    seq!(
        word!(KwDefault),
        opt!(tok!(Colon)),
        item_rule!(GenerateBlock)
    ),
    seq!(
        sym!(Expression),
        expression_rule!(MoreExpressions),
        tok!(Colon),
        item_rule!(GenerateBlock)
    )
);

/// case_generate_items : { case_generate_item }
const CASE_GENERATE_ITEMS: Part = many!(item_rule!(CaseGenerateItem));

/// case_generate_construct (A.4.2).
///
/// case_generate : `case` parenthesized case_generate_item case_generate_items `endcase`
const CASE_GENERATE: Part = seq!(
    word!(KwCase),
    expression_rule!(Parenthesized),
    item_rule!(CaseGenerateItem),
    item_rule!(CaseGenerateItems),
    word!(KwEndcase)
);

/// more_modport_items : { `,` modport_item }
const MORE_MODPORT_ITEMS: Part = many!(seq!(tok!(Comma), declaration_rule!(ModportItem)));

/// modport_declaration (A.2.9).
///
/// modport_declaration : `modport` modport_item more_modport_items `;`
const MODPORT_DECLARATION: Part = seq!(
    word!(KwModport),
    declaration_rule!(ModportItem),
    item_rule!(MoreModportItems),
    tok!(Semicolon)
);

/// hierarchical_instance (A.4.1.1).
///
/// instance : identifier argument_list
const INSTANCE: Part = seq!(tok!(Identifier), expression_rule!(ArgumentList));

/// more_instances : { `,` instance }
const MORE_INSTANCES: Part = many!(seq!(tok!(Comma), item_rule!(Instance)));

/// behind two identifiers: an instance of the first and further ones, or a variable of that type and further ones.
///
/// instances_or_variables : argument_list more_instances `;` | dimensions declaration_end `;`
const INSTANCES_OR_VARIABLES: Part = first_of!(
    seq!(
        expression_rule!(ArgumentList),
        item_rule!(MoreInstances),
        tok!(Semicolon)
    ),
    seq!(
        expression_rule!(Dimensions),
        type_rule!(DeclarationEnd),
        tok!(Semicolon)
    )
);

/// behind an identifier at the front of an item: module_instantiation with overrides (A.4.1.1), data_declaration of a
/// type in a package, of a type with packed dimensions (A.2.1.3), or either without.
///
/// named_item : `#` argument_list instance more_instances `;` | `::` identifier dimensions declared_name
/// declaration_end `;` | dimension dimensions declared_name declaration_end `;` | identifier instances_or_variables
const NAMED_ITEM: Part = first_of!(
    seq!(
        tok!(Hash),
        expression_rule!(ArgumentList),
        item_rule!(Instance),
        item_rule!(MoreInstances),
        tok!(Semicolon)
    ),
    seq!(
        tok!(ColonColon),
        tok!(Identifier),
        expression_rule!(Dimensions),
        type_rule!(DeclaredName),
        type_rule!(DeclarationEnd),
        tok!(Semicolon)
    ),
    seq!(
        expression_rule!(Dimension),
        expression_rule!(Dimensions),
        type_rule!(DeclaredName),
        type_rule!(DeclarationEnd),
        tok!(Semicolon)
    ),
    seq!(tok!(Identifier), item_rule!(InstancesOrVariables))
);

/// module_or_generate_item, non_port_module_item, interface_or_generate_item (A.1.4, A.1.6).
///
/// item : `;` | import_declaration | parameter_declaration | type_declaration | function_declaration |
/// genvar_declaration | net_declaration | variable_declaration | data_declaration | continuous_assign |
/// clocked_procedure | plain_procedure | generate_region | loop_generate | if_generate | case_generate |
/// modport_declaration | system_task | identifier named_item
const ITEM: Part = first_of!(
    tok!(Semicolon),
    declaration_rule!(ImportDeclaration),
    declaration_rule!(ParameterDeclaration),
    declaration_rule!(TypeDeclaration),
    statement_rule!(FunctionDeclaration),
    item_rule!(GenvarDeclaration),
    declaration_rule!(NetDeclaration),
    declaration_rule!(VariableDeclaration),
    declaration_rule!(DataDeclaration),
    item_rule!(ContinuousAssign),
    item_rule!(ClockedProcedure),
    item_rule!(PlainProcedure),
    item_rule!(GenerateRegion),
    item_rule!(LoopGenerate),
    item_rule!(IfGenerate),
    item_rule!(CaseGenerate),
    item_rule!(ModportDeclaration),
    statement_rule!(SystemTask),
    seq!(tok!(Identifier), item_rule!(NamedItem))
);

/// an item of the compilation unit or of a package: package_item (A.1.11).
///
/// unit_item : `;` | import_declaration | parameter_declaration | type_declaration | function_declaration
const UNIT_ITEM: Part = first_of!(
    tok!(Semicolon),
    declaration_rule!(ImportDeclaration),
    declaration_rule!(ParameterDeclaration),
    declaration_rule!(TypeDeclaration),
    statement_rule!(FunctionDeclaration)
);

/// unit_items : { unit_item }
const UNIT_ITEMS: Part = many!(item_rule!(UnitItem));

/// module_keyword (A.1.2).
///
/// module_keyword : `module` | `macromodule`
const MODULE_KEYWORD: Part = first_of!(word!(KwModule), word!(KwMacromodule));

/// module_declaration (A.1.2).
///
/// module_declaration : module_keyword header items `endmodule` [ label ]
const MODULE_DECLARATION: Part = seq!(
    item_rule!(ModuleKeyword),
    declaration_rule!(Header),
    item_rule!(Items),
    word!(KwEndmodule),
    opt!(declaration_rule!(Label))
);

/// interface_declaration (A.1.2).
///
/// interface_declaration : `interface` header items `endinterface` [ label ]
const INTERFACE_DECLARATION: Part = seq!(
    word!(KwInterface),
    declaration_rule!(Header),
    item_rule!(Items),
    word!(KwEndinterface),
    opt!(declaration_rule!(Label))
);

/// package_declaration (A.1.2).
///
/// package_declaration : `package` [ lifetime ] identifier `;` unit_items `endpackage` [ label ]
const PACKAGE_DECLARATION: Part = seq!(
    word!(KwPackage),
    opt!(declaration_rule!(Lifetime)),
    tok!(Identifier),
    tok!(Semicolon),
    item_rule!(UnitItems),
    word!(KwEndpackage),
    opt!(declaration_rule!(Label))
);

/// what a chunk may end with: description (A.1.2).
///
/// design : module_declaration | interface_declaration | package_declaration
const DESIGN: Part = first_of!(
    item_rule!(ModuleDeclaration),
    item_rule!(InterfaceDeclaration),
    item_rule!(PackageDeclaration)
);

/// a chunk of a file: items of the compilation unit and at most one design (own, after source_text in A.1.2).
///
/// chunk : unit_items [ design ]
const CHUNK: Part = seq!(item_rule!(UnitItems), opt!(item_rule!(Design)));

/// The right side of the rule.
#[tactic(auto, unfolding(sve_grammar::specs::Items::genvar_declaration, sve_grammar::specs::Items::net_assignment, sve_grammar::specs::Items::more_net_assignments, sve_grammar::specs::Items::continuous_assign, sve_grammar::specs::Items::edge, sve_grammar::specs::Items::event_expression, sve_grammar::specs::Items::event_separator, sve_grammar::specs::Items::more_events, sve_grammar::specs::Items::event_list, sve_grammar::specs::Items::event_control, sve_grammar::specs::Items::clocked_keyword, sve_grammar::specs::Items::clocked_procedure, sve_grammar::specs::Items::plain_keyword, sve_grammar::specs::Items::plain_procedure, sve_grammar::specs::Items::items, sve_grammar::specs::Items::generate_region, sve_grammar::specs::Items::generate_block, sve_grammar::specs::Items::genvar_iteration, sve_grammar::specs::Items::loop_generate, sve_grammar::specs::Items::else_generate, sve_grammar::specs::Items::if_generate, sve_grammar::specs::Items::case_generate_item, sve_grammar::specs::Items::case_generate_items, sve_grammar::specs::Items::case_generate, sve_grammar::specs::Items::more_modport_items, sve_grammar::specs::Items::modport_declaration, sve_grammar::specs::Items::instance, sve_grammar::specs::Items::more_instances, sve_grammar::specs::Items::instances_or_variables, sve_grammar::specs::Items::named_item, sve_grammar::specs::Items::item, sve_grammar::specs::Items::unit_item, sve_grammar::specs::Items::unit_items, sve_grammar::specs::Items::module_keyword, sve_grammar::specs::Items::module_declaration, sve_grammar::specs::Items::interface_declaration, sve_grammar::specs::Items::package_declaration, sve_grammar::specs::Items::design, sve_grammar::specs::Items::chunk))]
pub fn item_part(sign: ItemSign) -> Part
    ensures meaning { meaning result ≡ named (signs.Item sign) }
    ensures written { is_written result ≡ true }
{
    match sign {
        ItemSign::GenvarDeclaration => GENVAR_DECLARATION,
        ItemSign::NetAssignment => NET_ASSIGNMENT,
        ItemSign::MoreNetAssignments => MORE_NET_ASSIGNMENTS,
        ItemSign::ContinuousAssign => CONTINUOUS_ASSIGN,
        ItemSign::Edge => EDGE,
        ItemSign::EventExpression => EVENT_EXPRESSION,
        ItemSign::EventSeparator => EVENT_SEPARATOR,
        ItemSign::MoreEvents => MORE_EVENTS,
        ItemSign::EventList => EVENT_LIST,
        ItemSign::EventControl => EVENT_CONTROL,
        ItemSign::ClockedKeyword => CLOCKED_KEYWORD,
        ItemSign::ClockedProcedure => CLOCKED_PROCEDURE,
        ItemSign::PlainKeyword => PLAIN_KEYWORD,
        ItemSign::PlainProcedure => PLAIN_PROCEDURE,
        ItemSign::Items => ITEMS,
        ItemSign::GenerateRegion => GENERATE_REGION,
        ItemSign::GenerateBlock => GENERATE_BLOCK,
        ItemSign::GenvarIteration => GENVAR_ITERATION,
        ItemSign::LoopGenerate => LOOP_GENERATE,
        ItemSign::ElseGenerate => ELSE_GENERATE,
        ItemSign::IfGenerate => IF_GENERATE,
        ItemSign::CaseGenerateItem => CASE_GENERATE_ITEM,
        ItemSign::CaseGenerateItems => CASE_GENERATE_ITEMS,
        ItemSign::CaseGenerate => CASE_GENERATE,
        ItemSign::MoreModportItems => MORE_MODPORT_ITEMS,
        ItemSign::ModportDeclaration => MODPORT_DECLARATION,
        ItemSign::Instance => INSTANCE,
        ItemSign::MoreInstances => MORE_INSTANCES,
        ItemSign::InstancesOrVariables => INSTANCES_OR_VARIABLES,
        ItemSign::NamedItem => NAMED_ITEM,
        ItemSign::Item => ITEM,
        ItemSign::UnitItem => UNIT_ITEM,
        ItemSign::UnitItems => UNIT_ITEMS,
        ItemSign::ModuleKeyword => MODULE_KEYWORD,
        ItemSign::ModuleDeclaration => MODULE_DECLARATION,
        ItemSign::InterfaceDeclaration => INTERFACE_DECLARATION,
        ItemSign::PackageDeclaration => PACKAGE_DECLARATION,
        ItemSign::Design => DESIGN,
        ItemSign::Chunk => CHUNK,
    }
}
