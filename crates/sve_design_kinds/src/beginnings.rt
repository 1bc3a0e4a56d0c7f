//! Tokens in order, and the last of them in front of another.
ghost use Rattle.std.specs.Prelude.{◌≡◌, ◌<◌, ◌≤◌, length};
ghost use Rattle.std.specs.List.Sorted.{IsNonDecreasingBy, IsPartitionPoint};
ghost use Rattle.sve_design_kinds.specs.Beginnings.{Tokens, last_before, tokens_code, tokens_of};

use std::marker::Model;

/// The tokens at which instantiations begin, in order. A clause sees the set of them.
#[derive(Drop)]
pub(crate) struct Beginnings {
    in_order: Vec<u32>,
}

impl Model for Beginnings {
    ghost Value = { Tokens };

    ghost coded = { tokens_code };

    ghost view = { λ b. tokens_of b.in_order.items };

    ghost invariant = { λ b. IsNonDecreasingBy (λ x. x) b.in_order.items };
}

/// How many of these tokens, which are in order, stand in front of another.
fn count_in_front(in_order: &[u32], token: u32) -> usize
    requires { IsNonDecreasingBy (λ x. x) in_order.now }
    ensures bound { result ≤ length in_order.now }
    ensures parts { IsPartitionPoint (λ one. one < token) (λ one. token ≤ one) in_order.now result }
{
    in_order.partition_point(|one| *one < token)
}

/// The last of these tokens, which are in order, that stands in front of another.
fn last_in_front(in_order: &[u32], token: u32) -> Option<u32>
    requires { IsNonDecreasingBy (λ x. x) in_order.now }
    ensures { result ≡ last_before (tokens_of in_order.now) token }
{
    let count = count_in_front(in_order, token);
    if count == 0 {
        return None;
    }
    Some(in_order[count - 1])
}

impl Beginnings {
    /// These tokens, put in order.
    pub(crate) fn at(tokens: Vec<u32>) -> Beginnings
        ensures { result ≡ tokens_of tokens.items }
    {
        let mut in_order = tokens;
        in_order.sort_unstable();
        Beginnings { in_order }
    }

    /// The last one in front of a token.
    pub(crate) fn last_before(&self, token: u32) -> Option<u32>
        ensures { result ≡ last_before self.now token }
    {
        last_in_front(&self.in_order, token)
    }
}
