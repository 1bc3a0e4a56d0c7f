ghost use Rattle.std.specs.Prelude.{◌≡◌, IfOk};
ghost use Rattle.sve_form.specs.Keywords.{atom_target, vector_target, sign_or, atom_text, vector_text, keyword_text, keyword_target, keyword_fault, target_size};

use crate::operators::is_signed;
use std::alloc::Global;
use sve_bytes::NoMemory;
use sve_diag::Code;
use sve_fault::Fault;
use sve_rule::Target;
use sve_tree::{AtomKeyword, IntegerKeyword, Mark, Sign, VectorKeyword};

/// The sign that is written, or the one where none is.
fn sign_or(sign: Option<Mark<Sign>>, signed: bool) -> bool
    ensures { result ≡ sign_or sign signed }
{
    match sign {
        Some(sign) => is_signed(sign.kind),
        None => signed,
    }
}

/// A type with a width of its own (IEEE 1800-2017, Table 6-8).
fn atom_target(keyword: AtomKeyword, sign: Option<Mark<Sign>>) -> Target
    ensures { result ≡ atom_target keyword sign }
{
    let (width, signed, two_state) = match keyword {
        AtomKeyword::Byte => (8, true, true),
        AtomKeyword::Shortint => (16, true, true),
        AtomKeyword::Int => (32, true, true),
        AtomKeyword::Longint => (64, true, true),
        AtomKeyword::Integer => (32, true, false),
        AtomKeyword::Time => (64, false, false),
    };
    Target {
        width,
        signed: sign_or(sign, signed),
        two_state,
    }
}

/// A type of so many bits (6.11).
fn vector_target(keyword: VectorKeyword, sign: Option<Mark<Sign>>, width: u64) -> Target
    ensures { result ≡ vector_target keyword sign width }
{
    Target {
        width,
        signed: sign_or(sign, false),
        two_state: matches!(keyword, VectorKeyword::Bit),
    }
}

fn atom_text(keyword: AtomKeyword) -> &'static [u8]
    ensures { result.now ≡ atom_text keyword }
{
    match keyword {
        AtomKeyword::Byte => b"byte".as_slice(),
        AtomKeyword::Shortint => b"shortint".as_slice(),
        AtomKeyword::Int => b"int".as_slice(),
        AtomKeyword::Longint => b"longint".as_slice(),
        AtomKeyword::Integer => b"integer".as_slice(),
        AtomKeyword::Time => b"time".as_slice(),
    }
}

fn vector_text(keyword: VectorKeyword) -> &'static [u8]
    ensures { result.now ≡ vector_text keyword }
{
    match keyword {
        VectorKeyword::Bit => b"bit".as_slice(),
        VectorKeyword::Logic => b"logic".as_slice(),
        VectorKeyword::Reg => b"reg".as_slice(),
    }
}

/// The bytes of a keyword.
fn keyword_text(keyword: IntegerKeyword) -> &'static [u8]
    ensures { result.now ≡ keyword_text keyword }
{
    match keyword {
        IntegerKeyword::Atom(atom) => atom_text(atom),
        IntegerKeyword::Vector(vector) => vector_text(vector),
    }
}

/// A type where a value should be, or with dimensions that it cannot have. It fails for want of memory alone.
#[tactic(auto, unfolding(crate::specs::Keywords::keyword_fault))]
pub fn keyword_fault(alloc: Global, keyword: Mark<IntegerKeyword>) -> Result<Fault, NoMemory>
    ensures { IfOk result (λ f. f ≡ keyword_fault keyword) }
{
    Fault::about(alloc, keyword.token, Code::N11, keyword_text(keyword.kind))
}

/// The type of a keyword, by whether it has dimensions, and by their places together. It fails for want of memory alone.
#[tactic(auto, unfolding(crate::specs::Keywords::keyword_target))]
pub fn keyword_target(
    alloc: Global,
    keyword: Mark<IntegerKeyword>,
    sign: Option<Mark<Sign>>,
    is_plain: bool,
    places: Result<u64, Fault>,
) -> Result<Result<Target, Fault>, NoMemory>
    ensures { IfOk result (λ r. r ≡ keyword_target keyword sign is_plain places) }
{
    match keyword.kind {
        IntegerKeyword::Atom(atom) => {
            if is_plain {
                return Ok(Ok(atom_target(atom, sign)));
            }
            Ok(Err(keyword_fault(alloc, keyword)?))
        }
        IntegerKeyword::Vector(vector) => match places {
            Ok(width) => Ok(Ok(vector_target(vector, sign, width))),
            Err(fault) => Ok(Err(fault)),
        },
    }
}

/// The bits of a type, or what is wrong with it.
pub fn target_size(target: Result<Target, Fault>) -> Result<u64, Fault>
    ensures { result ≡ target_size target }
{
    match target {
        Ok(target) => Ok(target.width),
        Err(fault) => Err(fault),
    }
}
