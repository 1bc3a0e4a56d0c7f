ghost use Rattle.std.specs.Prelude.{◌≡◌, IfOk};
ghost use Rattle.sve_find.specs.Ends.{token_place};

use std::sync::Arc;
use sve_bytes::{List, NoMemory, Step};
use sve_design::Visit;
use sve_facts::Facts;
use sve_scope::Spot;

/// Where the way along a path ends.
pub struct Found {
    /// The innermost instance on the path.
    pub visit: Visit,
    /// Where its name stands, in the file of its parent. A top has no such name.
    pub at: Option<Spot>,
    /// What is found of its body.
    pub facts: Arc<Facts>,
    /// The steps of the path behind it: none, or the path of a generate block of its body.
    pub rest: List<Step>,
    /// What is left of the budget.
    pub left: u32,
}

impl Drop for Found {
    fn drop(self) {
        let Found {
            visit: _,
            at: _,
            facts: _,
            rest: _,
            left: _,
        } = self;
    }
}

/// What the way along a path comes to.
#[derive(Drop)]
pub enum Find {
    /// The innermost instance on the path.
    Here(Found),
    /// The path names neither an instance nor a generate block of one.
    None,
    /// The instances on the way cost more than the budget.
    Spent,
}

/// The token of this number in the text of a body, where it has a scope.
pub(crate) fn token_place(facts: &Facts, token: u32) -> Result<Option<Spot>, NoMemory>
    ensures { IfOk result (λ place. place ≡ token_place facts.now.scopes token) }
{
    match facts.scopes.items().split_first() {
        Some((own, _)) => Ok(Some(Spot {
            file: own.scope.file.copy()?,
            chunk: own.scope.chunk,
            token,
        })),
        None => Ok(None),
    }
}
