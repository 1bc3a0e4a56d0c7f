//! The rules of data types, of names that are declared, and of ports (IEEE 1800-2017, A.2.2.1, A.2.3, A.2.5 and A.1.3).
//! As in Annex A, `[ ]` is at most one and `{ }` any number; tokens stand between backticks.

ghost use Rattle.std.specs.Prelude.{◌≡◌, true};
ghost use Rattle.sve_run.specs.Meaning.{meaning, named, is_written};
ghost use Rattle.sve_run.specs.declared.part.Sign.TheVariants as signs;

use crate::expressions::ExpressionSign;
use crate::part::{
    Part, Sign, expression_rule, first_of, many, opt, seq, sym, tok, type_rule, word,
};
use sve_grammar::Symbol;
use sve_token::{Keyword, Kind};

/// The names of these rules.
#[derive(Clone, Copy)]
pub enum TypeSign {
    MoreIdentifiers,
    DeclaredName,
    Initializer,
    MoreDeclarators,
    DeclarationEnd,
    AtomType,
    VectorType,
    NamedType,
    EnumBase,
    EnumName,
    MoreEnumNames,
    Enumeration,
    TypeReference,
    Member,
    Members,
    Structure,
    DataType,
    DeclaredTypeEnd,
    DeclaredType,
    Direction,
    NetType,
    PortTypeEnd,
    PortType,
    PortKind,
    Port,
    MorePorts,
    PortRow,
    Ports,
    ParameterKeyword,
    ParameterPort,
    MoreParameterPorts,
    ParameterPortRow,
    ParameterPorts,
}

/// more_identifiers : { `,` identifier }
const MORE_IDENTIFIERS: Part = many!(seq!(tok!(Comma), tok!(Identifier)));

/// a name that is declared, with its unpacked dimensions.
///
/// declared_name : identifier dimensions
const DECLARED_NAME: Part = seq!(tok!(Identifier), expression_rule!(Dimensions));

/// = expression.
///
/// initializer : `=` expression
const INITIALIZER: Part = seq!(tok!(Assign), sym!(Expression));

/// more_declarators : { `,` declared_name [ initializer ] }
const MORE_DECLARATORS: Part = many!(seq!(
    tok!(Comma),
    type_rule!(DeclaredName),
    opt!(type_rule!(Initializer))
));

/// behind the first declared name, its value and the other names: list_of_variable_decl_assignments (A.2.3).
///
/// declaration_end : [ initializer ] more_declarators
const DECLARATION_END: Part = seq!(opt!(type_rule!(Initializer)), type_rule!(MoreDeclarators));

/// an integer type of a width of its own, and its signing: data_type (A.2.2.1).
///
/// atom_type : integer_atom_type [ signing ]
const ATOM_TYPE: Part = seq!(
    expression_rule!(IntegerAtomType),
    opt!(expression_rule!(Signing))
);

/// an integer type of one bit for each place, its signing and its packed dimensions: data_type (A.2.2.1).
///
/// vector_type : integer_vector_type [ signing ] dimensions
const VECTOR_TYPE: Part = seq!(
    expression_rule!(IntegerVectorType),
    opt!(expression_rule!(Signing)),
    expression_rule!(Dimensions)
);

/// a type by its name: type_identifier with package scope and packed dimensions (A.2.2.1).
///
/// named_type : scoped_name dimensions
const NAMED_TYPE: Part = seq!(expression_rule!(ScopedName), expression_rule!(Dimensions));

/// enum_base_type (A.2.2.1).
///
/// enum_base : atom_type | vector_type | named_type
const ENUM_BASE: Part = first_of!(
    type_rule!(AtomType),
    type_rule!(VectorType),
    type_rule!(NamedType)
);

/// enum_name_declaration (A.2.2.1).
///
/// enum_name : identifier [ initializer ]
const ENUM_NAME: Part = seq!(tok!(Identifier), opt!(type_rule!(Initializer)));

/// more_enum_names : { `,` enum_name }
const MORE_ENUM_NAMES: Part = many!(seq!(tok!(Comma), type_rule!(EnumName)));

/// an enumeration: data_type (A.2.2.1).
///
/// enumeration : `enum` [ enum_base ] `{` enum_name more_enum_names `}` dimensions
const ENUMERATION: Part = seq!(
    word!(KwEnum),
    opt!(type_rule!(EnumBase)),
    tok!(LeftBrace),
    type_rule!(EnumName),
    type_rule!(MoreEnumNames),
    tok!(RightBrace),
    expression_rule!(Dimensions)
);

/// any type: data_type (A.2.2.1).
///
/// type_reference : data_type | named_type
const TYPE_REFERENCE: Part = first_of!(sym!(DataType), type_rule!(NamedType));

/// struct_union_member (A.2.2.1).
///
/// member : type_reference identifier more_identifiers `;`
const MEMBER: Part = seq!(
    type_rule!(TypeReference),
    tok!(Identifier),
    type_rule!(MoreIdentifiers),
    tok!(Semicolon)
);

/// members : { member }
const MEMBERS: Part = many!(type_rule!(Member));

/// a packed structure: data_type (A.2.2.1).
///
/// structure : `struct` `packed` [ signing ] `{` member members `}` dimensions
const STRUCTURE: Part = seq!(
    word!(KwStruct),
    word!(KwPacked),
    opt!(expression_rule!(Signing)),
    tok!(LeftBrace),
    type_rule!(Member),
    type_rule!(Members),
    tok!(RightBrace),
    expression_rule!(Dimensions)
);

/// data_type that begins with a keyword (A.2.2.1).
///
/// data_type : atom_type | vector_type | `string` | enumeration | structure
const DATA_TYPE: Part = first_of!(
    type_rule!(AtomType),
    type_rule!(VectorType),
    word!(KwString),
    type_rule!(Enumeration),
    type_rule!(Structure)
);

/// behind an identifier that is the name of a type, of a package or what is declared.
///
/// declared_type_end : `::` identifier dimensions declared_name | dimensions [ declared_name ]
const DECLARED_TYPE_END: Part = first_of!(
    seq!(
        tok!(ColonColon),
        tok!(Identifier),
        expression_rule!(Dimensions),
        type_rule!(DeclaredName)
    ),
    seq!(expression_rule!(Dimensions), opt!(type_rule!(DeclaredName)))
);

/// a name with its type, which may be left out: data_type_or_implicit and an identifier (A.2.2.1).
///
/// declared_type : data_type declared_name | signing dimensions declared_name | dimension dimensions declared_name |
/// identifier declared_type_end
const DECLARED_TYPE: Part = first_of!(
    seq!(sym!(DataType), type_rule!(DeclaredName)),
    seq!(
        expression_rule!(Signing),
        expression_rule!(Dimensions),
        type_rule!(DeclaredName)
    ),
    seq!(
        expression_rule!(Dimension),
        expression_rule!(Dimensions),
        type_rule!(DeclaredName)
    ),
    seq!(tok!(Identifier), type_rule!(DeclaredTypeEnd))
);

/// port_direction (A.1.3).
///
/// direction : `input` | `output` | `inout`
const DIRECTION: Part = first_of!(word!(KwInput), word!(KwOutput), word!(KwInout));

/// net_type (A.2.2.1).
///
/// net_type : `wire` | `tri` | `uwire` | `wand` | `wor` | `triand` | `trior` | `tri0` | `tri1` | `supply0` | `supply1`
const NET_TYPE: Part = first_of!(
    word!(KwWire),
    word!(KwTri),
    word!(KwUwire),
    word!(KwWand),
    word!(KwWor),
    word!(KwTriand),
    word!(KwTrior),
    word!(KwTri0),
    word!(KwTri1),
    word!(KwSupply0),
    word!(KwSupply1)
);

/// behind an identifier that is a type, a package, an interface or the port.
///
/// port_type_end : `::` identifier dimensions declared_name | `.` identifier declared_name | dimensions [ declared_name
/// ]
const PORT_TYPE_END: Part = first_of!(
    seq!(
        tok!(ColonColon),
        tok!(Identifier),
        expression_rule!(Dimensions),
        type_rule!(DeclaredName)
    ),
    seq!(tok!(Dot), tok!(Identifier), type_rule!(DeclaredName)),
    seq!(expression_rule!(Dimensions), opt!(type_rule!(DeclaredName)))
);

/// the type and the name of a port: net_port_type, variable_port_type, interface_port_header (A.1.3).
///
/// port_type : data_type declared_name | signing dimensions declared_name | dimension dimensions declared_name |
/// identifier port_type_end
const PORT_TYPE: Part = first_of!(
    seq!(sym!(DataType), type_rule!(DeclaredName)),
    seq!(
        expression_rule!(Signing),
        expression_rule!(Dimensions),
        type_rule!(DeclaredName)
    ),
    seq!(
        expression_rule!(Dimension),
        expression_rule!(Dimensions),
        type_rule!(DeclaredName)
    ),
    seq!(tok!(Identifier), type_rule!(PortTypeEnd))
);

/// whether a port is a variable or which net it is.
///
/// port_kind : `var` | net_type
const PORT_KIND: Part = first_of!(word!(KwVar), type_rule!(NetType));

/// ansi_port_declaration (A.1.3).
///
/// port : [ direction ] [ port_kind ] port_type
const PORT: Part = seq!(
    opt!(type_rule!(Direction)),
    opt!(type_rule!(PortKind)),
    type_rule!(PortType)
);

/// more_ports : { `,` port }
const MORE_PORTS: Part = many!(seq!(tok!(Comma), type_rule!(Port)));

/// port_row : port more_ports
const PORT_ROW: Part = seq!(type_rule!(Port), type_rule!(MorePorts));

/// list_of_port_declarations (A.1.3).
///
/// ports : `(` [ port_row ] `)`
const PORTS: Part = seq!(tok!(LeftParen), opt!(type_rule!(PortRow)), tok!(RightParen));

/// parameter_keyword : `parameter` | `localparam`
const PARAMETER_KEYWORD: Part = first_of!(word!(KwParameter), word!(KwLocalparam));

/// parameter_port_declaration (A.1.3).
///
/// parameter_port : [ parameter_keyword ] declared_type [ initializer ]
const PARAMETER_PORT: Part = seq!(
    opt!(type_rule!(ParameterKeyword)),
    type_rule!(DeclaredType),
    opt!(type_rule!(Initializer))
);

/// more_parameter_ports : { `,` parameter_port }
const MORE_PARAMETER_PORTS: Part = many!(seq!(tok!(Comma), type_rule!(ParameterPort)));

/// parameter_port_row : parameter_port more_parameter_ports
const PARAMETER_PORT_ROW: Part = seq!(type_rule!(ParameterPort), type_rule!(MoreParameterPorts));

/// parameter_port_list (A.1.3).
///
/// parameter_ports : `#` `(` [ parameter_port_row ] `)`
const PARAMETER_PORTS: Part = seq!(
    tok!(Hash),
    tok!(LeftParen),
    opt!(type_rule!(ParameterPortRow)),
    tok!(RightParen)
);

/// The right side of the rule.
#[tactic(auto, unfolding(sve_grammar::specs::Types::more_identifiers, sve_grammar::specs::Types::declared_name, sve_grammar::specs::Types::initializer, sve_grammar::specs::Types::more_declarators, sve_grammar::specs::Types::declaration_end, sve_grammar::specs::Types::atom_type, sve_grammar::specs::Types::vector_type, sve_grammar::specs::Types::named_type, sve_grammar::specs::Types::enum_base, sve_grammar::specs::Types::enum_name, sve_grammar::specs::Types::more_enum_names, sve_grammar::specs::Types::enumeration, sve_grammar::specs::Types::type_reference, sve_grammar::specs::Types::member, sve_grammar::specs::Types::members, sve_grammar::specs::Types::structure, sve_grammar::specs::Types::data_type, sve_grammar::specs::Types::declared_type_end, sve_grammar::specs::Types::declared_type, sve_grammar::specs::Types::direction, sve_grammar::specs::Types::net_type, sve_grammar::specs::Types::port_type_end, sve_grammar::specs::Types::port_type, sve_grammar::specs::Types::port_kind, sve_grammar::specs::Types::port, sve_grammar::specs::Types::more_ports, sve_grammar::specs::Types::port_row, sve_grammar::specs::Types::ports, sve_grammar::specs::Types::parameter_keyword, sve_grammar::specs::Types::parameter_port, sve_grammar::specs::Types::more_parameter_ports, sve_grammar::specs::Types::parameter_port_row, sve_grammar::specs::Types::parameter_ports))]
pub fn type_part(sign: TypeSign) -> Part
    ensures meaning { meaning result ≡ named (signs.Type sign) }
    ensures written { is_written result ≡ true }
{
    match sign {
        TypeSign::MoreIdentifiers => MORE_IDENTIFIERS,
        TypeSign::DeclaredName => DECLARED_NAME,
        TypeSign::Initializer => INITIALIZER,
        TypeSign::MoreDeclarators => MORE_DECLARATORS,
        TypeSign::DeclarationEnd => DECLARATION_END,
        TypeSign::AtomType => ATOM_TYPE,
        TypeSign::VectorType => VECTOR_TYPE,
        TypeSign::NamedType => NAMED_TYPE,
        TypeSign::EnumBase => ENUM_BASE,
        TypeSign::EnumName => ENUM_NAME,
        TypeSign::MoreEnumNames => MORE_ENUM_NAMES,
        TypeSign::Enumeration => ENUMERATION,
        TypeSign::TypeReference => TYPE_REFERENCE,
        TypeSign::Member => MEMBER,
        TypeSign::Members => MEMBERS,
        TypeSign::Structure => STRUCTURE,
        TypeSign::DataType => DATA_TYPE,
        TypeSign::DeclaredTypeEnd => DECLARED_TYPE_END,
        TypeSign::DeclaredType => DECLARED_TYPE,
        TypeSign::Direction => DIRECTION,
        TypeSign::NetType => NET_TYPE,
        TypeSign::PortTypeEnd => PORT_TYPE_END,
        TypeSign::PortType => PORT_TYPE,
        TypeSign::PortKind => PORT_KIND,
        TypeSign::Port => PORT,
        TypeSign::MorePorts => MORE_PORTS,
        TypeSign::PortRow => PORT_ROW,
        TypeSign::Ports => PORTS,
        TypeSign::ParameterKeyword => PARAMETER_KEYWORD,
        TypeSign::ParameterPort => PARAMETER_PORT,
        TypeSign::MoreParameterPorts => MORE_PARAMETER_PORTS,
        TypeSign::ParameterPortRow => PARAMETER_PORT_ROW,
        TypeSign::ParameterPorts => PARAMETER_PORTS,
    }
}
