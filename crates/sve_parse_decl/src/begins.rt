//! Whether a port or a parameter begins at a place.

ghost use Rattle.std.specs.Prelude.{◌≡◌};
ghost use Rattle.sve_grammar.specs.Token.{kind_at};
ghost use Rattle.sve_grammar.specs.Rule.{starts};
ghost use Rattle.sve_grammar.specs.Types.{declared_type, port_kind, port, parameter_port};

use sve_grammar::{Symbol, is_kind, is_one_of, opens_here};
use sve_parse_word::{direction, net, parameter_keyword};
use sve_token::{Keyword, Kind, Token};

/// Whether a declared name with its type, as far as one is written, begins here.
#[tactic(auto, using(crate::proofs::Starts::declared_type_begins))]
fn begins_declared_type(tokens: &[Token], at: u32) -> bool
    ensures { result ≡ starts declared_type (kind_at tokens.now at) }
{
    opens_here(tokens, at, Symbol::DataType) || is_one_of(tokens, at, &NAME_FIRSTS)
}

/// Whether `var` or a net type stands here.
#[tactic(auto, using(crate::proofs::Starts::port_kind_begins))]
pub(crate) fn begins_port_kind(tokens: &[Token], at: u32) -> bool
    ensures { result ≡ starts port_kind (kind_at tokens.now at) }
{
    is_kind(tokens, at, Kind::Keyword(Keyword::KwVar)) || net(tokens, at).is_some()
}

/// Whether a port begins here.
#[tactic(auto, using(crate::proofs::Starts::port_begins))]
pub(crate) fn begins_port(tokens: &[Token], at: u32) -> bool
    ensures { result ≡ starts port (kind_at tokens.now at) }
{
    if direction(tokens, at).is_some() {
        return true;
    }
    begins_port_kind(tokens, at) || begins_declared_type(tokens, at)
}

/// Whether a parameter of a header begins here.
#[tactic(auto, using(crate::proofs::Starts::parameter_port_begins))]
pub(crate) fn begins_parameter_port(tokens: &[Token], at: u32) -> bool
    ensures { result ≡ starts parameter_port (kind_at tokens.now at) }
{
    parameter_keyword(tokens, at).is_some() || begins_declared_type(tokens, at)
}

const NAME_FIRSTS: [Kind; 4] = [
    Kind::Keyword(Keyword::KwSigned),
    Kind::Keyword(Keyword::KwUnsigned),
    Kind::LeftBracket,
    Kind::Identifier,
];
