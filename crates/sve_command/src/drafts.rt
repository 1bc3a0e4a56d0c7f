//! Commands as they are read, before their limits are tested.
ghost use Rattle.std.specs.Prelude.{◌≡◌};
ghost use Rattle.sve_command.specs.declared.commands.Command.TheVariants.{Commit, Ask};
ghost use Rattle.sve_command.specs.Sizes.{HasFairBudget, bad_budget, bad_budget_of, edit_count};

use crate::commands::{Command, MAX_BUDGET, Query};
use std::marker::Model;
use sve_bytes::List;
use sve_text::{Edit, Mode};

/// A command whose budget may be any whole number, also one that no ask may have. Contracts see the command.
#[derive(Drop)]
pub struct Draft {
    command: Command,
    budget: Option<u64>,
}

impl Model for Draft {
    ghost use Rattle.sve_command.specs.declared.commands.Command.{Command};
    ghost use Rattle.sve_command.specs.Drafts.{with_budget};

    ghost Value = { Command };

    ghost view = { λ d. with_budget d.budget d.command };
}

impl Draft {
    /// The commit of these edits.
    pub fn commit(edits: List<Edit>) -> Draft
        ensures { result ≡ Commit edits }
    {
        Draft {
            command: Command::Commit(edits),
            budget: None,
        }
    }

    /// The ask of this query.
    pub fn ask(query: Query, mode: Mode, budget: Option<u64>) -> Draft
        ensures { result ≡ Ask query mode budget }
    {
        Draft {
            command: Command::Ask {
                query,
                mode,
                budget: None,
            },
            budget,
        }
    }

    /// How many edits the command has.
    pub fn edit_count(&self) -> usize
        ensures { result ≡ edit_count self.now }
    {
        match &self.command {
            Command::Commit(edits) => edits.items().len(),
            Command::Ask { .. } => 0,
        }
    }

    /// The command's budget, where it is one that no ask may have.
    pub fn bad_budget(&self) -> Option<u64>
        ensures { result ≡ bad_budget_of self.now }
    {
        match &self.command {
            Command::Commit(_) => None,
            Command::Ask { .. } => bad_budget(self.budget),
        }
    }

    /// The command.
    pub fn settled(self) -> Command
        requires { HasFairBudget self }
        ensures { result ≡ self }
    {
        let Draft { command, budget } = self;
        match command {
            Command::Commit(edits) => Command::Commit(edits),
            Command::Ask { query, mode, .. } => Command::Ask {
                query,
                mode,
                budget: fair_budget(budget),
            },
        }
    }
}

/// The budget, where it is one that no ask may have.
fn bad_budget(budget: Option<u64>) -> Option<u64>
    ensures { result ≡ bad_budget budget }
{
    match budget {
        Some(number) if number < 1 || number > MAX_BUDGET => Some(number),
        _ => None,
    }
}

/// The budget, which is one that an ask may have.
fn fair_budget(budget: Option<u64>) -> Option<u32>
    requires { bad_budget budget ≡ None }
    ensures { result ≡ budget }
{
    match budget {
        Some(number) => Some(number as u32),
        None => None,
    }
}
