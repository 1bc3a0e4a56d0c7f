//! The net types in force where tokens begin (IEEE 1800-2017, 22.8).
ghost use Rattle.std.specs.Prelude.{◌≡◌, ◌≤◌, ℕ, drop, IfOk};
ghost use Rattle.sve_lex.specs.Tokens.{Rise};
ghost use Rattle.sve_front.specs.Nets.{net_from, nets_at};

use std::alloc::Global;
use sve_bytes::{List, NetType, NoMemory};

/// How far directives that name net types have been gone over.
#[derive(Clone, Copy)]
struct Reached {
    /// The net type that is in force behind them.
    net: NetType,
    /// The number of the next one.
    next: usize,
}

/// Goes over directives, up to the first that stands behind a start.
fn advance(named: &[(u32, NetType)], from: Reached, start: u32) -> Reached
    ensures here { net_from result.net (drop result.next named.now) start ≡ result.net }
    ensures later { (at : ℕ) → start ≤ at → net_from result.net (drop result.next named.now) at ≡ net_from from.net (drop from.next named.now) at }
{
    let mut reached = from;
    'named: while reached.next < named.len() {
        let (offset, net) = named[reached.next];
        if offset > start {
            return reached;
        }
        reached = Reached {
            net,
            next: reached.next + 1,
        };
    }
    reached
}

/// The net types in force where tokens begin, by the directives that name them and what they name. It takes time in proportion
/// to both.
pub(crate) fn nets_at(
    alloc: Global,
    named: &[(u32, NetType)],
    starts: &[u32],
) -> Result<List<NetType>, NoMemory>
    requires { Rise 0 starts.now }
    ensures { IfOk result (λ nets. nets ≡ nets_at named.now starts.now) }
{
    let mut nets = Vec::new(alloc);
    let mut reached = Reached {
        net: NetType::Wire,
        next: 0,
    };
    'starts: for start in starts {
        reached = advance(named, reached, *start);
        nets.push(reached.net)?;
    }
    Ok(List::of(nets))
}
