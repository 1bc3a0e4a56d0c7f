//! The instances of a design with their bodies, and what is to be said of them.
ghost use Rattle.std.specs.Prelude.{◌≡◌, [], ◌++◌, option_map, IfErr, IfOk, OnOk};
ghost use Rattle.std.specs.Arc.{arc_value};
ghost use Rattle.std.specs.List.{flat_map};
ghost use Rattle.sve_told.specs.Told.{HasStopped, TellSame, asked_on};
ghost use Rattle.sve_facts.specs.Bodies.{Design, IsOf};
ghost use Rattle.sve_design.specs.Paying.{walk_asks};
ghost use Rattle.sve_design.specs.Halts.{HaltedAmong};
ghost use Rattle.sve_survey.specs.Visitors.{given_by_all};
ghost use Rattle.sve_survey.specs.Notes.{notes_of};
ghost use Rattle.sve_survey.specs.Surveyed.{surveyed_of, surveyor};

use crate::surveying::survey;
use crate::visiting::Visitor;
use std::alloc::Global;
use std::marker::Model;
use std::sync::Arc;
use sve_bytes::{Name, NoMemory};
use sve_design::{Visit, deep_notes};
use sve_diag::Note;
use sve_facts::{Bodies, Facts};
use sve_io::Halt;

/// An instance of a design with what is found of its body (IEEE 1800-2017, 23.3). Clauses see that wherever it lies in memory.
pub struct Surveyed {
    visit: Visit,
    facts: Arc<Facts>,
}

impl Drop for Surveyed {
    fn drop(self) {
        let Surveyed { visit: _, facts: _ } = self;
    }
}

impl Model for Surveyed {
    ghost use Rattle.std.specs.Arc.{arc_value};
    ghost use Rattle.sve_survey.specs.Surveyed.{SurveyedValue, surveyed_code};

    ghost Value = { SurveyedValue };

    ghost coded = { surveyed_code };

    ghost view = { λ s. record { visit = s.visit; facts = arc_value s.facts } };
}

impl Surveyed {
    /// The instance of a visit, whose body has these facts.
    fn of(alloc: Global, visit: &Visit, facts: &Arc<Facts>) -> Result<Surveyed, NoMemory>
        ensures { IfOk result (λ s. s ≡ record { visit = visit.now; facts = arc_value facts.now }) }
    {
        let visit = Visit {
            path: visit.path.copy(alloc)?,
            spec: visit.spec.copy(alloc)?,
            depth: visit.depth,
        };
        Ok(Surveyed {
            visit,
            facts: Arc::try_clone(facts)?,
        })
    }

    /// Its path from the root, what it is an instance of, and its depth. It takes no memory.
    pub fn visit(&self) -> &Visit
        ensures { result.now ≡ self.now.visit }
    {
        &self.visit
    }

    /// What is found of its body. It takes no memory.
    pub fn facts(&self) -> &Arc<Facts>
        ensures { arc_value result.now ≡ self.now.facts }
    {
        &self.facts
    }
}

/// The visitor that collects the instances.
#[derive(Drop)]
pub struct Surveyor {
    instances: Vec<Surveyed>,
}

impl Surveyor {
    /// The visitor, with no instances. It takes no memory.
    pub fn new(alloc: Global) -> Surveyor
        ensures { ⟦<Surveyor as Visitor>⟧.state result ≡ surveyor [] }
    {
        Surveyor {
            instances: Vec::new(alloc),
        }
    }

    /// The instances that it holds, in order. It takes no memory.
    pub fn into_instances(self) -> Vec<Surveyed>
        ensures { ⟦<Surveyor as Visitor>⟧.state self ≡ surveyor result.items }
    {
        self.instances
    }
}

impl Visitor for Surveyor {
    ghost use Rattle.sve_survey.specs.Surveyed.{surveyor};

    type Item = Surveyed;

    ghost state = { λ visitor. surveyor visitor.instances.items };

    fn visit(
        &mut self,
        alloc: Global,
        visit: &Visit,
        _unconnected: &[Name],
        facts: &Arc<Facts>,
    ) -> Result<(), NoMemory> {
        let instance = Surveyed::of(alloc, visit, facts)?;
        self.instances.push(instance)?;
        Ok(())
    }
}

/// All instances of a design, each before its children, and these in the order of the text (IEEE 1800-2017, 23.3); none where they cost
/// more than the budget.
///
/// # Errors
/// `Stopped` where the bodies stopped, or `NoMemory`.
pub fn surveyed_instances<B: Bodies>(
    alloc: Global,
    bodies: &mut B,
    budget: u32,
) -> Result<Option<Vec<Surveyed>>, Halt>
    // What the bodies tell stays, and so do they but for their notes.
    ensures tells { TellSame (B.tells bodies.old) (B.tells bodies.new) }
    ensures keeps { B.keeps bodies.old bodies.new }

    // The instances of any design of which they tell, and the bodies that were asked for.
    ensures instances { (design : Design) → IsOf design (B.tells bodies.old) → IfOk result (λ instances. option_map (λ instances. instances.items) instances ≡ given_by_all surveyed_of design budget) }
    ensures asked { (design : Design) → IsOf design (B.tells bodies.old) → OnOk result (B.asked bodies.new ≡ asked_on (walk_asks design budget) (B.asked bodies.old)) }

    // It halts only at a question that it asks and of which nothing is told, and the number of a stop is kept.
    ensures not_halted { OnOk result (B.halted bodies.new ≡ B.halted bodies.old) }
    ensures halted { (design : Design) → IsOf design (B.tells bodies.old)
        → IfErr result (λ halt. HaltedAmong (B.tells bodies.old) (walk_asks design budget) (B.halted bodies.old) (B.halted bodies.new)) }
    ensures stopped { IfErr result (HasStopped (B.stops bodies.old) (B.stops bodies.new)) }
    ensures not_stopped { OnOk result (B.stops bodies.new ≡ B.stops bodies.old) }
{
    let mut visitor = Surveyor::new(alloc);
    if !survey(alloc, bodies, budget, &mut visitor)? {
        return Ok(None);
    }
    Ok(Some(visitor.into_instances()))
}

/// Adds copies of these notes.
fn add_copies(copied: &[Note], notes: &mut Vec<Note>) -> Result<(), NoMemory>
    ensures { OnOk result (notes.new.items ≡ notes.old.items ++ copied.now) }
{
    'copied: for note in copied {
        notes.push(note.copy()?)?;
    }
    Ok(())
}

/// Adds what is to be said of an instance.
fn add_notes(alloc: Global, instance: &Surveyed, notes: &mut Vec<Note>) -> Result<(), NoMemory>
    ensures { OnOk result (notes.new.items ≡ notes.old.items ++ notes_of instance.now) }
{
    add_copies(instance.facts.notes.items(), notes)?;
    let mut deep = deep_notes(alloc, &instance.visit, &instance.facts)?;
    notes.append(&mut deep)
}

/// What is to be said of instances: of the body of each, and of the instances in it that would stand too deep (own).
///
/// # Errors
/// For want of memory alone.
pub fn notes_of_instances(alloc: Global, instances: &[Surveyed]) -> Result<Vec<Note>, NoMemory>
    ensures { IfOk result (λ notes. notes.items ≡ flat_map notes_of instances.now) }
{
    let mut notes = Vec::new(alloc);
    'instances: for instance in instances {
        add_notes(alloc, instance, &mut notes)?;
    }
    Ok(notes)
}
