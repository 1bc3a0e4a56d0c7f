//! The bodies of a project's design, each elaborated as it is asked for.
ghost use Rattle.std.specs.Prelude.{◌≡◌, [], IfErr, IfOk};
ghost use Rattle.sve_told.specs.Told.{HasStopped};
ghost use Rattle.sve_facts.specs.Bodies.{CostsWithin, OfBody, OfTops, answer_of, body_value};
ghost use Rattle.sve_project.specs.Replies.{design_of};

use crate::project::Project;
use crate::tops::top_specs;
use crate::world::Source;
use std::alloc::Global;
use sve_bytes::{List, NoMemory};
use sve_elaborate::elaborate;
use sve_facts::{Bodies, Body};
use sve_io::Halt;
use sve_spec::Spec;

/// The bodies of the design of a project: each is elaborated anew as it is asked for, and nothing is kept. They tell of the design
/// that the project is, and never halt but for want of memory.
#[derive(Drop)]
pub struct Elaborated<'a> {
    /// The project.
    pub project: &'a Project,
}

impl<'a> Elaborated<'a> {
    /// The bodies of the design of this project. It takes no memory.
    pub fn new(project: &'a Project) -> Elaborated<'a>
        ensures { result.project.now ≡ project.now }
    {
        Elaborated { project }
    }
}

/// The body of a specialization, where it costs no more than this.
fn body_of(alloc: Global, project: &Project, spec: &Spec, fuel: u32) -> Result<Body, Halt>
    ensures found { IfOk result (λ body. body_value body ≡ answer_of (design_of project.now) (OfBody spec.now fuel)) }
    ensures within { IfOk result (CostsWithin fuel) }
    ensures stopped { IfErr result (HasStopped [] []) }
{
    elaborate(alloc, spec, fuel, &mut Source { alloc, project })
}

/// The specializations of the tops.
#[tactic(auto, unfolding(crate::specs::Replies::design_of))]
fn tops_of(alloc: Global, project: &Project) -> Result<List<Spec>, NoMemory>
    ensures { IfOk result (λ tops. tops ≡ answer_of (design_of project.now) OfTops) }
{
    Ok(List::of(top_specs(alloc, project)?))
}

impl<'a> Bodies for Elaborated<'a> {
    ghost use Rattle.std.specs.Prelude.{◌≡◌, None, []};
    ghost use Rattle.sve_facts.specs.Bodies.{Answer, Question, answer_of};
    ghost use Rattle.sve_project.specs.Replies.{design_of};

    ghost tells = { λ bodies question answer. answer ≡ answer_of (design_of bodies.project.now) question };

    ghost keeps = { λ old new. (question : Question) (answer : Answer question)
        → answer ≡ answer_of (design_of old.project.now) question → answer ≡ answer_of (design_of new.project.now) question };

    ghost halted = { λ bodies. None };

    ghost stops = { λ bodies. [] };

    ghost asked = { λ bodies. None };

    ghost keeps_itself = { λ bodies question answer told. told };

    ghost keeps_on = { λ old now new first second question answer told. second question answer (first question answer told) };

    fn body(&mut self, alloc: Global, spec: &Spec, fuel: u32) -> Result<Body, Halt> {
        body_of(alloc, self.project, spec, fuel)
    }

    fn tops(&mut self, alloc: Global) -> Result<List<Spec>, Halt> {
        Ok(tops_of(alloc, self.project)?)
    }
}
