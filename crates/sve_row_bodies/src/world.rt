//! What the elaboration of the body of a row reads.
use std::alloc::Global;
use std::sync::Arc;
use sve_bytes::{List, Name, NetType, NoMemory};
use sve_elaborate::ports;
use sve_facts::{Facts, Port};
use sve_function::Constants;
use sve_index::{FileElement, Index};
use sve_io::Halt;
use sve_known::Known;
use sve_look::Look;
use sve_package::{cyclic_package, package};
use sve_spec::Spec;
use sve_table::Table;
use sve_tree::Element;

/// What the elaboration of the body of a row reads: the elements of its file, and what is told of them.
#[derive(Drop)]
pub struct World<'a> {
    /// The allocator.
    pub alloc: Global,
    /// The name of the file.
    pub file: &'a Name,
    /// Its elements.
    pub elements: &'a [FileElement],
    /// Its index.
    pub index: &'a Arc<Index>,
    /// Its packages.
    pub known: &'a Table<Known>,
    /// The chunk of the body, and its token from which on the default net type is `none`.
    pub none: (u32, u32),
}

/// The element of a chunk.
fn element_at(elements: &[FileElement], chunk: u32) -> Option<&FileElement> {
    for each in elements {
        if each.chunk == chunk {
            return Some(each);
        }
    }
    None
}

impl<'a> World<'a> {
    /// What is found of the package of an element, which is on a cycle or not.
    fn facts_of(&self, each: &FileElement, is_cyclic: bool) -> Result<Facts, NoMemory> {
        let tree = each.element();
        if is_cyclic {
            return cyclic_package(self.alloc, self.file, each.chunk, tree);
        }
        package(
            self.alloc, &Constants, self.known, self.file, each.chunk, tree,
        )
    }

    /// What is found of the package in a chunk, which is on a cycle or not.
    fn facts_at(&self, chunk: u32, is_cyclic: bool) -> Result<Facts, NoMemory> {
        match element_at(self.elements, chunk) {
            Some(each) => self.facts_of(each, is_cyclic),
            None => Ok(Facts::none(self.alloc)),
        }
    }

    /// What is found of a package. One on a cycle, or that leads to one, has no scope.
    fn facts_named(&self, name: &Name) -> Result<Facts, NoMemory> {
        match (self.known.get(name), self.index.packages.get(name)) {
            (Some(known), Some(def)) => {
                self.facts_at(def.chunk, known.facts().scopes.items().is_empty())
            }
            _ => Ok(Facts::none(self.alloc)),
        }
    }

    /// What is found of a package, to be shared.
    fn package_named(&self, name: &Name) -> Result<Arc<Facts>, NoMemory> {
        let facts = self.facts_named(name)?;
        Ok(Arc::new(self.alloc, facts)?)
    }

    /// The net type that is in force at a token of a chunk.
    fn net_at(&self, chunk: u32, token: u32) -> NetType {
        if chunk == self.none.0 && token >= self.none.1 {
            return NetType::None;
        }
        NetType::Wire
    }

    /// The element of a chunk, to be shared.
    fn element_in(&self, chunk: u32) -> Result<Option<Arc<Element>>, NoMemory> {
        match element_at(self.elements, chunk) {
            Some(each) => Ok(Some(Arc::try_clone(&each.element)?)),
            None => Ok(None),
        }
    }
}

/// What a header of a row reads. It asks for no ports, and is told none.
#[derive(Drop)]
struct Headers<'a, 'b> {
    world: &'b World<'a>,
}

/// It tells nothing of itself, as the world of the row.
impl Look for Headers<'_, '_> {
    ghost use Rattle.std.specs.Prelude.{None, []};

    ghost tells = { λ world question answer. Unit {0} };

    ghost keeps = { λ old new. Unit {0} };

    ghost halted = { λ world. None };

    ghost stops = { λ world. [] };

    ghost asked = { λ world. None };

    fn element(&mut self, _file: &Name, chunk: u32) -> Result<Option<Arc<Element>>, Halt> {
        Ok(self.world.element_in(chunk)?)
    }

    fn net(&mut self, _file: &Name, chunk: u32, token: u32) -> Result<NetType, Halt> {
        Ok(self.world.net_at(chunk, token))
    }

    fn index(&mut self) -> Result<Arc<Index>, Halt> {
        Ok(Arc::try_clone(self.world.index)?)
    }

    fn package(&mut self, name: &Name) -> Result<Arc<Facts>, Halt> {
        Ok(self.world.package_named(name)?)
    }

    fn ports(&mut self, _spec: &Spec) -> Result<Arc<List<Port>>, Halt> {
        let alloc = self.world.alloc;
        Ok(Arc::new(alloc, List::of(Vec::new(alloc)))?)
    }

    ghost keeps_itself = { λ world. tt };

    ghost keeps_on = { λ old now new first second. tt };
}

/// It tells nothing of itself: rows are compared, and nothing is proved over it.
impl Look for World<'_> {
    ghost use Rattle.std.specs.Prelude.{None, []};

    ghost tells = { λ world question answer. Unit {0} };

    ghost keeps = { λ old new. Unit {0} };

    ghost halted = { λ world. None };

    ghost stops = { λ world. [] };

    ghost asked = { λ world. None };

    fn element(&mut self, _file: &Name, chunk: u32) -> Result<Option<Arc<Element>>, Halt> {
        Ok(self.element_in(chunk)?)
    }

    fn net(&mut self, _file: &Name, chunk: u32, token: u32) -> Result<NetType, Halt> {
        Ok(self.net_at(chunk, token))
    }

    fn index(&mut self) -> Result<Arc<Index>, Halt> {
        Ok(Arc::try_clone(self.index)?)
    }

    fn package(&mut self, name: &Name) -> Result<Arc<Facts>, Halt> {
        Ok(self.package_named(name)?)
    }

    fn ports(&mut self, spec: &Spec) -> Result<Arc<List<Port>>, Halt> {
        let alloc = self.alloc;
        let ports = ports(alloc, spec, &mut Headers { world: self })?;
        Ok(Arc::new(alloc, ports)?)
    }

    ghost keeps_itself = { λ world. tt };

    ghost keeps_on = { λ old now new first second. tt };
}
