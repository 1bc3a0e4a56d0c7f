//! What the elaboration of headers and bodies reads of a project.
ghost use Rattle.std.specs.Prelude.{◌≡◌, [], IfErr, IfOk};
ghost use Rattle.std.specs.Arc.{arc_value};
ghost use Rattle.sve_told.specs.Told.{HasStopped};
ghost use Rattle.sve_look.specs.Questions.{element_in};
ghost use Rattle.sve_project.specs.Projects.{tree_in};
ghost use Rattle.sve_project.specs.Replies.{facts_named, ports_of};

use crate::project::Project;
use std::alloc::Global;
use std::sync::Arc;
use sve_bytes::{List, Name, NetType, NoMemory};
use sve_elaborate::ports;
use sve_facts::{Facts, Port};
use sve_index::Index;
use sve_io::Halt;
use sve_look::Look;
use sve_spec::Spec;
use sve_tree::Element;

/// The tree of a chunk, which is shared.
fn element_at(project: &Project, file: &Name, chunk: u32) -> Result<Option<Arc<Element>>, NoMemory>
    ensures { IfOk result (λ tree. element_in tree ≡ tree_in project.now file.now chunk) }
{
    match project.tree(file, chunk) {
        Some(tree) => Ok(Some(Arc::try_clone(tree)?)),
        None => Ok(None),
    }
}

/// What is found of a package, which is shared.
#[tactic(auto, unfolding(crate::specs::Replies::facts_named))]
fn facts_named(alloc: Global, project: &Project, name: &Name) -> Result<Arc<Facts>, NoMemory>
    ensures { IfOk result (λ facts. arc_value facts ≡ facts_named project.now name.now) }
{
    match project.shared_facts(name) {
        Some(facts) => Ok(Arc::try_clone(facts)?),
        None => Ok(Arc::new(alloc, Facts::none(alloc))?),
    }
}

/// What a header reads of a project. It asks for no ports, and is told none.
#[derive(Drop)]
pub(crate) struct Headers<'a> {
    pub(crate) alloc: Global,
    pub(crate) project: &'a Project,
}

impl<'a> Look for Headers<'a> {
    ghost use Rattle.std.specs.Prelude.{◌≡◌, None, []};
    ghost use Rattle.sve_look.specs.Questions.{Question, Reply};
    ghost use Rattle.sve_project.specs.Replies.{reply_but_ports};

    ghost tells = { λ headers question answer. answer ≡ reply_but_ports headers.project.now question };

    ghost keeps = { λ old new. (question : Question) (answer : Reply question)
        → answer ≡ reply_but_ports old.project.now question → answer ≡ reply_but_ports new.project.now question };

    ghost halted = { λ headers. None };

    ghost stops = { λ headers. [] };

    ghost asked = { λ headers. None };

    ghost keeps_itself = { λ headers question answer told. told };

    ghost keeps_on = { λ old now new first second question answer told. second question answer (first question answer told) };

    fn element(&mut self, file: &Name, chunk: u32) -> Result<Option<Arc<Element>>, Halt> {
        Ok(element_at(self.project, file, chunk)?)
    }

    fn net(&mut self, file: &Name, chunk: u32, token: u32) -> Result<NetType, Halt> {
        Ok(self.project.net_type(file, chunk, token))
    }

    fn index(&mut self) -> Result<Arc<Index>, Halt> {
        Ok(Arc::try_clone(self.project.shared_index())?)
    }

    fn package(&mut self, name: &Name) -> Result<Arc<Facts>, Halt> {
        Ok(facts_named(self.alloc, self.project, name)?)
    }

    fn ports(&mut self, _spec: &Spec) -> Result<Arc<List<Port>>, Halt> {
        Ok(Arc::new(self.alloc, List::of(Vec::new(self.alloc)))?)
    }
}

/// The ports of a specialization, by its header.
fn ports_of(alloc: Global, project: &Project, spec: &Spec) -> Result<List<Port>, Halt>
    ensures ports { IfOk result (λ ports. ports ≡ ports_of project.now spec.now) }
    ensures stopped { IfErr result (HasStopped [] []) }
{
    ports(alloc, spec, &mut Headers { alloc, project })
}

/// What a body reads of a project.
#[derive(Drop)]
pub(crate) struct Source<'a> {
    pub(crate) alloc: Global,
    pub(crate) project: &'a Project,
}

impl<'a> Look for Source<'a> {
    ghost use Rattle.std.specs.Prelude.{◌≡◌, None, []};
    ghost use Rattle.sve_look.specs.Questions.{Question, Reply};
    ghost use Rattle.sve_project.specs.Replies.{reply_in};

    ghost tells = { λ source question answer. answer ≡ reply_in source.project.now question };

    ghost keeps = { λ old new. (question : Question) (answer : Reply question)
        → answer ≡ reply_in old.project.now question → answer ≡ reply_in new.project.now question };

    ghost halted = { λ source. None };

    ghost stops = { λ source. [] };

    ghost asked = { λ source. None };

    ghost keeps_itself = { λ source question answer told. told };

    ghost keeps_on = { λ old now new first second question answer told. second question answer (first question answer told) };

    fn element(&mut self, file: &Name, chunk: u32) -> Result<Option<Arc<Element>>, Halt> {
        Ok(element_at(self.project, file, chunk)?)
    }

    fn net(&mut self, file: &Name, chunk: u32, token: u32) -> Result<NetType, Halt> {
        Ok(self.project.net_type(file, chunk, token))
    }

    fn index(&mut self) -> Result<Arc<Index>, Halt> {
        Ok(Arc::try_clone(self.project.shared_index())?)
    }

    fn package(&mut self, name: &Name) -> Result<Arc<Facts>, Halt> {
        Ok(facts_named(self.alloc, self.project, name)?)
    }

    fn ports(&mut self, spec: &Spec) -> Result<Arc<List<Port>>, Halt> {
        let ports = ports_of(self.alloc, self.project, spec)?;
        Ok(Arc::new(self.alloc, ports)?)
    }
}
