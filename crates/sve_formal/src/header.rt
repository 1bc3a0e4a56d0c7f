ghost use Rattle.std.specs.Prelude.{◌≡◌, ◌++◌, OnOk};
ghost use Rattle.sve_tree.specs.declared.word.ParameterKeyword.TheVariants.{Parameter};
ghost use Rattle.sve_formal.specs.Formals.{header_formal, header_formals};

use crate::Formal;
use crate::formal::{is_local_keyword, keyword_after};
use sve_bytes::NoMemory;
use sve_tree::{ParameterKeyword, ParameterPort};

/// A parameter of a header, where this keyword is in force.
fn header_formal(keyword: ParameterKeyword, port: &ParameterPort) -> Formal
    ensures { result ≡ header_formal keyword port.now }
{
    Formal {
        token: port.name(),
        is_local: is_local_keyword(keyword),
        has_value: port.value.is_some(),
    }
}

/// Adds the parameters of a header. In front of the first keyword they can be overridden.
pub(crate) fn in_header(ports: &[ParameterPort], found: &mut Vec<Formal>) -> Result<(), NoMemory>
    ensures { OnOk result (found.new.items ≡ found.old.items ++ header_formals Parameter ports.now) }
{
    let mut keyword = ParameterKeyword::Parameter;
    'ports: for port in ports {
        keyword = keyword_after(keyword, port.keyword);
        found.push(header_formal(keyword, port))?;
    }
    Ok(())
}
