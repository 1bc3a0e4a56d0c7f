ghost use Rattle.std.specs.Prelude.{◌≡◌, IsTrue};
ghost use Rattle.sve_token.specs.Operators.{entries, descends};
ghost use Rattle.sve_lex.specs.Longest.{longest};
ghost use Rattle.sve_lex.specs.Classes.{listed};

use sve_token::{Kind, Operator};

/// The kind of the longest entry that begins the text, and its length in bytes.
pub fn front(table: &[Operator], text: &[u8]) -> Option<(Kind, usize)>
    requires { IsTrue (descends (entries table.now)) }
    ensures { result ≡ longest text.now (listed (entries table.now)) }
{
    for operator in table {
        if text.starts_with(operator.rest) {
            return Some((operator.kind, operator.rest.len()));
        }
    }
    None
}
