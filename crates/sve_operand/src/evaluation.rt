ghost use Rattle.std.specs.Prelude.{◌≡◌, length};
ghost use Rattle.sve_value.specs.Vector.{IsWidth};
ghost use Rattle.sve_operand.specs.Pending.{value_in, linked, links_applied};

use crate::pending::{Link, Pending};
use sve_value::{Bits, choose};

/// The value in a context of a size, 1 to 128 bits, and a sign.
#[cycle(evaluation)]
#[tactic(auto, using(crate::proofs::Pendings::values))]
pub(crate) fn value(pending: &Pending, width: u32, signed: bool) -> Bits
    requires { IsWidth width }
    ensures value { result ≡ value_in width signed pending.now }
    ensures width { length result.bits ≡ width }
    ensures sign { result.signed ≡ signed }
{
    match pending {
        Pending::Settled(bits) => bits.extend(width, signed),
        Pending::Spread(bit) => Bits::filled(width, signed, *bit),
        Pending::Unary { operator, operand } => {
            let operand = value(operand, width, signed);
            sve_value::unary(*operator, operand).extend(width, signed)
        }
        Pending::Chain { first, links } => {
            let first = value(first, width, signed);
            chain(first, links, width, signed)
        }
        Pending::Choice {
            condition,
            chosen,
            otherwise,
        } => {
            let chosen = value(chosen, width, signed);
            let otherwise = value(otherwise, width, signed);
            choose(*condition, chosen, otherwise).extend(width, signed)
        }
    }
}

/// What the operators of a chain leave, applied in turn.
#[cycle(evaluation)]
#[tactic(auto, using(crate::proofs::Pendings::links_step, crate::proofs::Pendings::links_end))]
fn chain(first: Bits, links: &[Link], width: u32, signed: bool) -> Bits
    requires range { IsWidth width }
    requires width { length first.bits ≡ width }
    requires sign { first.signed ≡ signed }
    ensures value { result ≡ links_applied width signed links.now first }
    ensures width { length result.bits ≡ width }
    ensures sign { result.signed ≡ signed }
{
    let mut total = first;
    'links: for next in links {
        total = link(total, next, width, signed);
    }
    total
}

/// What one operator of a chain leaves.
#[cycle(evaluation)]
#[tactic(auto, using(crate::proofs::Pendings::link_values))]
fn link(left: Bits, link: &Link, width: u32, signed: bool) -> Bits
    requires range { IsWidth width }
    requires width { length left.bits ≡ width }
    requires sign { left.signed ≡ signed }
    ensures value { result ≡ linked width signed link.now left }
    ensures width { length result.bits ≡ width }
    ensures sign { result.signed ≡ signed }
{
    match link {
        Link::Shared { operator, right } => {
            let right = value(right, width, signed);
            sve_value::binary(*operator, left, right).extend(width, signed)
        }
        Link::Shifted { operator, right } => operator.apply(left, *right).extend(width, signed),
    }
}
