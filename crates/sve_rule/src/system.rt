ghost use Rattle.std.specs.Prelude.{◌≡◌};
ghost use Rattle.sve_rule.specs.Judged.{judged};
ghost use Rattle.sve_operand.specs.Pending.{meaning_of};
ghost use Rattle.sve_rule.specs.Systems.{function_named, number_meaning, bits_judged, system_judged};

use crate::cast::sign_cast;
use crate::operator::Judged;
use sve_fault::Fault;
use sve_operand::{Operand, settled};
use sve_value::{Bits, clog2};

/// The system functions of constant expressions (IEEE 1800-2017, 11.7, 20.6.2 and 20.8.1).
#[derive(Clone, Copy)]
pub enum SystemFunction {
    /// `$bits`: how many bits a type or an expression has.
    Bits,
    /// `$clog2`: the ceiling of the logarithm to the base two.
    Clog2,
    /// `$signed`: the same bits, signed.
    Signed,
    /// `$unsigned`: the same bits, unsigned.
    Unsigned,
}

/// The system function of a name, where it is one of these.
pub fn function(name: &[u8]) -> Option<SystemFunction>
    ensures { result ≡ function_named name.now }
{
    if name == b"$bits".as_slice() {
        Some(SystemFunction::Bits)
    } else if name == b"$clog2".as_slice() {
        Some(SystemFunction::Clog2)
    } else if name == b"$signed".as_slice() {
        Some(SystemFunction::Signed)
    } else if name == b"$unsigned".as_slice() {
        Some(SystemFunction::Unsigned)
    } else {
        None
    }
}

/// A number of bits as a value: 32 bits, signed.
fn number(bits: u64) -> Operand
    ensures { meaning_of result ≡ number_meaning bits }
{
    settled(Bits::number(32, true, u128::from(bits)))
}

/// `$bits` of a type of so many bits, or what is wrong with the type (20.6.2).
pub fn type_size(bits: Result<u64, Fault>) -> Judged
    ensures { judged result ≡ bits_judged bits }
{
    match bits {
        Ok(bits) => Ok(number(bits)),
        Err(fault) => Err(fault),
    }
}

/// A system function of an expression.
pub fn system_function(function: SystemFunction, a: Judged) -> Judged
    ensures { judged result ≡ system_judged function (judged a) }
{
    match function {
        SystemFunction::Bits => match a {
            Ok(a) => Ok(number(u64::from(a.width()))),
            Err(fault) => Err(fault),
        },
        SystemFunction::Clog2 => match a {
            Ok(a) => Ok(settled(clog2(a.own_value()))),
            Err(fault) => Err(fault),
        },
        SystemFunction::Signed => sign_cast(true, a),
        SystemFunction::Unsigned => sign_cast(false, a),
    }
}
