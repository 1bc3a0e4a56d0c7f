//! The rules of declarations and of the header of a module or an interface (IEEE 1800-2017, A.1.2, A.2.1, A.2.6 and
//! A.2.9). As in Annex A, `[ ]` is at most one and `{ }` any number; tokens stand between backticks.

ghost use Rattle.std.specs.Prelude.{◌≡◌, true};
ghost use Rattle.sve_run.specs.Meaning.{meaning, named, is_written};
ghost use Rattle.sve_run.specs.declared.part.Sign.TheVariants as signs;

use crate::part::{
    Part, Sign, declaration_rule, first_of, many, opt, seq, sym, tok, type_rule, word,
};
use crate::types::TypeSign;
use sve_grammar::Symbol;
use sve_token::{Keyword, Kind};

/// The names of these rules.
#[derive(Clone, Copy)]
pub enum DeclarationSign {
    Lifetime,
    Label,
    ImportedName,
    ImportItem,
    MoreImportItems,
    ImportDeclaration,
    Imports,
    Header,
    MoreParameters,
    ParameterDeclaration,
    TypeDeclaration,
    NetDeclaration,
    VariableDeclaration,
    DataDeclaration,
    ModportPort,
    MoreModportPorts,
    ModportItem,
}

/// lifetime (A.2.1.3).
///
/// lifetime : `automatic` | `static`
const LIFETIME: Part = first_of!(word!(KwAutomatic), word!(KwStatic));

/// the name again behind an end or a begin: : identifier.
///
/// label : `:` identifier
const LABEL: Part = seq!(tok!(Colon), tok!(Identifier));

/// the one name, or all of them.
///
/// imported_name : identifier | `*`
const IMPORTED_NAME: Part = first_of!(tok!(Identifier), tok!(Star));

/// package_import_item (A.2.1.3).
///
/// import_item : identifier `::` imported_name
const IMPORT_ITEM: Part = seq!(
    tok!(Identifier),
    tok!(ColonColon),
    declaration_rule!(ImportedName)
);

/// more_import_items : { `,` import_item }
const MORE_IMPORT_ITEMS: Part = many!(seq!(tok!(Comma), declaration_rule!(ImportItem)));

/// package_import_declaration (A.2.1.3).
///
/// import_declaration : `import` import_item more_import_items `;`
const IMPORT_DECLARATION: Part = seq!(
    word!(KwImport),
    declaration_rule!(ImportItem),
    declaration_rule!(MoreImportItems),
    tok!(Semicolon)
);

/// imports : { import_declaration }
const IMPORTS: Part = many!(declaration_rule!(ImportDeclaration));

/// the header of a module or an interface behind its keyword: module_ansi_header, interface_ansi_header (A.1.2).
///
/// header : [ lifetime ] identifier imports [ parameter_ports ] [ ports ] `;`
const HEADER: Part = seq!(
    opt!(declaration_rule!(Lifetime)),
    tok!(Identifier),
    declaration_rule!(Imports),
    opt!(type_rule!(ParameterPorts)),
    opt!(type_rule!(Ports)),
    tok!(Semicolon)
);

/// more_parameters : { `,` declared_name initializer }
const MORE_PARAMETERS: Part = many!(seq!(
    tok!(Comma),
    type_rule!(DeclaredName),
    type_rule!(Initializer)
));

/// parameter_declaration, local_parameter_declaration (A.2.1.1).
///
/// parameter_declaration : parameter_keyword declared_type initializer more_parameters `;`
const PARAMETER_DECLARATION: Part = seq!(
    type_rule!(ParameterKeyword),
    type_rule!(DeclaredType),
    type_rule!(Initializer),
    declaration_rule!(MoreParameters),
    tok!(Semicolon)
);

/// type_declaration (A.2.1.3).
///
/// type_declaration : `typedef` type_reference declared_name `;`
const TYPE_DECLARATION: Part = seq!(
    word!(KwTypedef),
    type_rule!(TypeReference),
    type_rule!(DeclaredName),
    tok!(Semicolon)
);

/// net_declaration (A.2.1.3).
///
/// net_declaration : net_type declared_type declaration_end `;`
const NET_DECLARATION: Part = seq!(
    type_rule!(NetType),
    type_rule!(DeclaredType),
    type_rule!(DeclarationEnd),
    tok!(Semicolon)
);

/// data_declaration with var (A.2.1.3).
///
/// variable_declaration : `var` declared_type declaration_end `;`
const VARIABLE_DECLARATION: Part = seq!(
    word!(KwVar),
    type_rule!(DeclaredType),
    type_rule!(DeclarationEnd),
    tok!(Semicolon)
);

/// data_declaration that begins with its type (A.2.1.3).
///
/// data_declaration : data_type declared_name declaration_end `;`
const DATA_DECLARATION: Part = seq!(
    sym!(DataType),
    type_rule!(DeclaredName),
    type_rule!(DeclarationEnd),
    tok!(Semicolon)
);

/// a further port of a modport: modport_simple_port (A.2.9).
///
/// modport_port : [ direction ] identifier
const MODPORT_PORT: Part = seq!(opt!(type_rule!(Direction)), tok!(Identifier));

/// more_modport_ports : { `,` modport_port }
const MORE_MODPORT_PORTS: Part = many!(seq!(tok!(Comma), declaration_rule!(ModportPort)));

/// modport_item (A.2.9).
///
/// modport_item : identifier `(` direction identifier more_modport_ports `)`
const MODPORT_ITEM: Part = seq!(
    tok!(Identifier),
    tok!(LeftParen),
    type_rule!(Direction),
    tok!(Identifier),
    declaration_rule!(MoreModportPorts),
    tok!(RightParen)
);

/// The right side of the rule.
#[tactic(auto, unfolding(sve_grammar::specs::Declarations::lifetime, sve_grammar::specs::Declarations::label, sve_grammar::specs::Declarations::imported_name, sve_grammar::specs::Declarations::import_item, sve_grammar::specs::Declarations::more_import_items, sve_grammar::specs::Declarations::import_declaration, sve_grammar::specs::Declarations::imports, sve_grammar::specs::Declarations::header, sve_grammar::specs::Declarations::more_parameters, sve_grammar::specs::Declarations::parameter_declaration, sve_grammar::specs::Declarations::type_declaration, sve_grammar::specs::Declarations::net_declaration, sve_grammar::specs::Declarations::variable_declaration, sve_grammar::specs::Declarations::data_declaration, sve_grammar::specs::Declarations::modport_port, sve_grammar::specs::Declarations::more_modport_ports, sve_grammar::specs::Declarations::modport_item))]
pub fn declaration_part(sign: DeclarationSign) -> Part
    ensures meaning { meaning result ≡ named (signs.Declaration sign) }
    ensures written { is_written result ≡ true }
{
    match sign {
        DeclarationSign::Lifetime => LIFETIME,
        DeclarationSign::Label => LABEL,
        DeclarationSign::ImportedName => IMPORTED_NAME,
        DeclarationSign::ImportItem => IMPORT_ITEM,
        DeclarationSign::MoreImportItems => MORE_IMPORT_ITEMS,
        DeclarationSign::ImportDeclaration => IMPORT_DECLARATION,
        DeclarationSign::Imports => IMPORTS,
        DeclarationSign::Header => HEADER,
        DeclarationSign::MoreParameters => MORE_PARAMETERS,
        DeclarationSign::ParameterDeclaration => PARAMETER_DECLARATION,
        DeclarationSign::TypeDeclaration => TYPE_DECLARATION,
        DeclarationSign::NetDeclaration => NET_DECLARATION,
        DeclarationSign::VariableDeclaration => VARIABLE_DECLARATION,
        DeclarationSign::DataDeclaration => DATA_DECLARATION,
        DeclarationSign::ModportPort => MODPORT_PORT,
        DeclarationSign::MoreModportPorts => MORE_MODPORT_PORTS,
        DeclarationSign::ModportItem => MODPORT_ITEM,
    }
}
