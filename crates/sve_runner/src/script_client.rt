//! A client that runs the commands of a script.
ghost use Rattle.std.specs.Prelude.{◌≡◌, ◌<◌};
ghost use Rattle.sve_runner.specs.Honest.{commands_at};
ghost use Rattle.sve_runner.specs.Told.{AreFew};

use crate::commands::run_commands;
use crate::gate::Gate;
use crate::stop::Stop;
use crate::terms::Terms;
use crate::told::Told;
use std::alloc::Global;
use std::sync::Wait;
use sve_board::Pass;
use sve_bytes::List;
use sve_clients::{Client, Ran};
use sve_command::{Command, Query};
use sve_session::{Plan, Session};
use sve_store::Start;

/// The clients of a script, client 1 first. One value serves them all.
#[derive(Drop)]
pub(crate) struct ScriptClient<'a, G: Gate> {
    pub(crate) clients: &'a [List<Command>],
    pub(crate) terms: Terms,
    pub(crate) gate: &'a G,
    ghost few: { AreFew clients.now },
}

impl<'a, K: Start<Query = Query>, G: Gate> Client<K> for ScriptClient<'a, G> {
    ghost use Rattle.sve_runner.specs.Honest.{edits_in, commands_at};
    ghost use Rattle.sve_runner.specs.Told.{answers_by, HasLeft};

    type Left = Result<Told, Stop>;

    ghost edits = { λ script. edits_in script.clients.now };

    ghost leaves = { λ script opening most number front pass left. HasLeft (answers_by K.Key.cmp K.given K.make K.answers_over) script.terms opening (edits_in script.clients.now) most number front (commands_at script.clients.now number) pass left };

    fn run<P: Plan, R: Wait>(
        &self,
        rt: &R,
        alloc: Global,
        session: &Session<K, P>,
        pass: Pass,
    ) -> Ran<Result<Told, Stop>> {
        let mut pass = pass;
        let commands = commands_at(self.clients, pass.client());
        let left = run_commands(
            rt, alloc, session, &mut pass, commands, self.terms, self.gate,
        );
        Ran { pass, left }
    }
}

/// The commands of the client of this number, from 1; there are none where there is no such client.
fn commands_at(clients: &[List<Command>], number: u32) -> &[Command]
    requires { 0 < number }
    ensures { result.now ≡ commands_at clients.now number }
{
    match clients.get(number as usize - 1) {
        Some(commands) => commands.items(),
        None => &[],
    }
}
