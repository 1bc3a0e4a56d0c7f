//! Bodies that a row lists.
ghost use Rattle.std.specs.Prelude.{IfOk};
ghost use Rattle.sve_facts.specs.Bodies.{CostsWithin};

use std::alloc::Global;
use std::fmt::Write;
use std::sync::Arc;
use sve_bytes::{List, Name, NoMemory};
use sve_facts::{Bodies, Body, Facts};
use sve_io::Halt;
use sve_row::spell;
use sve_spec::Spec;

/// A module with what is found of its body and what that costs.
#[derive(Drop)]
pub struct Entry {
    /// Its name.
    pub name: Name,
    /// What its body costs.
    pub cost: u32,
    /// What is found of it.
    pub facts: Arc<Facts>,
}

/// The bodies of some modules, the tops, and what was asked for so far, as `name@fuel` behind a blank each.
#[derive(Drop)]
pub struct Listed {
    /// The names of the tops.
    pub tops: Vec<Name>,
    /// The modules.
    pub entries: Vec<Entry>,
    /// What was asked for.
    pub asked: String,
}

/// The specialization of a module that overrides nothing.
fn plain(alloc: Global, name: &Name) -> Result<Spec, NoMemory> {
    Ok(Spec {
        definition: name.copy()?,
        values: List::of(Vec::new(alloc)),
        faces: List::of(Vec::new(alloc)),
    })
}

/// The body of a module, where it costs no more than the fuel. One that is not listed has nothing in it.
fn body_of(alloc: Global, entries: &[Entry], name: &Name, fuel: u32) -> Result<Body, NoMemory>
    ensures { IfOk result (CostsWithin fuel) }
{
    for entry in entries {
        if entry.name == *name {
            if entry.cost > fuel {
                return Ok(Body::Over);
            }
            return Ok(Body::Done {
                facts: Arc::try_clone(&entry.facts)?,
                cost: entry.cost,
            });
        }
    }
    Ok(Body::Done {
        facts: Arc::new(alloc, Facts::none(alloc))?,
        cost: 0,
    })
}

/// Adds what is asked for to what was.
fn note(asked: &mut String, name: &Name, fuel: u32) -> Result<(), NoMemory> {
    asked.push_str(" ")?;
    spell(asked, name.bytes())?;
    write!(asked, "@{fuel}")
}

/// It tells nothing of itself: rows are compared, and nothing is proved over it.
impl Bodies for Listed {
    ghost use Rattle.std.specs.Prelude.{None, []};

    ghost tells = { λ listed question answer. Unit {0} };

    ghost keeps = { λ old new. Unit {0} };

    ghost halted = { λ listed. None };

    ghost stops = { λ listed. [] };

    ghost asked = { λ listed. None };

    fn body(&mut self, alloc: Global, spec: &Spec, fuel: u32) -> Result<Body, Halt> {
        note(&mut self.asked, &spec.definition, fuel)?;
        Ok(body_of(alloc, &self.entries, &spec.definition, fuel)?)
    }

    fn tops(&mut self, alloc: Global) -> Result<List<Spec>, Halt> {
        let mut tops = Vec::new(alloc);
        for name in &self.tops {
            tops.push(plain(alloc, name)?)?;
        }
        Ok(List::of(tops))
    }

    ghost keeps_itself = { λ listed. tt };

    ghost keeps_on = { λ old now new first second. tt };
}
