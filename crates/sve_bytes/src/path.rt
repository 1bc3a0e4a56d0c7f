ghost use Rattle.std.specs.Prelude.{◌≡◌, ◌++◌, IfOk, OnOk, length};
ghost use Rattle.std.specs.List.{list_all};
ghost use Rattle.sve_bytes.specs.Bytes.{continues_identifier};
ghost use Rattle.sve_bytes.specs.PathText.{name_text, index_text, has_form_of_identifier, is_simple_identifier, step_text, path_text};

use crate::{List, Name, NoMemory, begins_identifier, continues_identifier, is_keyword};
use std::alloc::Global;

/// One step of a path: a name and, for a block of a generate loop, the value of its genvar (IEEE 1800-2017, 23.6).
#[derive(Drop)]
pub struct Step {
    /// The name of an instance or of a block.
    pub name: Name,
    /// The value of the genvar, where the step is a block of a loop.
    pub index: Option<i32>,
}

/// A hierarchical name: the steps from the outermost on. A path without steps is spelled by no byte.
#[derive(Drop)]
pub struct Path {
    /// The steps.
    pub steps: List<Step>,
}

fn are_parts_of_identifier(bytes: &[u8]) -> bool
    ensures { result ≡ list_all continues_identifier bytes.now }
{
    bytes.iter().all(|b| continues_identifier(*b))
}

fn has_form_of_identifier(name: &[u8]) -> bool
    ensures { result ≡ has_form_of_identifier name.now }
{
    match name.split_first() {
        Some((first, rest)) => begins_identifier(*first) && are_parts_of_identifier(rest),
        None => false,
    }
}

fn is_simple_identifier(name: &[u8]) -> bool
    ensures { result ≡ is_simple_identifier name.now }
{
    has_form_of_identifier(name) && !is_keyword(name)
}

impl Step {
    /// The same step, whose name shares its bytes.
    pub fn copy(&self) -> Result<Step, NoMemory>
        ensures { IfOk result (λ s. s ≡ self.now) }
    {
        Ok(Step {
            name: self.name.copy()?,
            index: self.index,
        })
    }

    fn append_name(&self, text: &mut Vec<u8>) -> Result<(), NoMemory>
        ensures { OnOk result (text.new.items ≡ text.old.items ++ name_text self.now.name) }
    {
        let name = self.name.bytes();
        if is_simple_identifier(name) {
            return text.extend_from_slice(name);
        }
        text.push(b'\\')?;
        text.extend_from_slice(name)?;
        text.push(b' ')?;
        Ok(())
    }

    fn append_index(&self, alloc: Global, text: &mut Vec<u8>) -> Result<(), NoMemory>
        ensures { OnOk result (text.new.items ≡ text.old.items ++ index_text self.now.index) }
    {
        match self.index {
            Some(index) => {
                let shown = format!(in alloc; "[{index}]")?;
                text.extend_from_slice(shown.as_bytes())
            }
            None => Ok(()),
        }
    }

    fn append_to(&self, alloc: Global, text: &mut Vec<u8>) -> Result<(), NoMemory>
        ensures { OnOk result (text.new.items ≡ text.old.items ++ step_text self.now) }
    {
        self.append_name(text)?;
        self.append_index(alloc, text)
    }
}

impl Path {
    /// The text of the path: its steps joined by dots, each a name and, for a block of a loop, its index in brackets.
    /// A name that is no simple identifier, or is a keyword, is a backslash, the name and one space.
    pub fn print(&self, alloc: Global) -> Result<Vec<u8>, NoMemory>
        ensures { IfOk result (λ v. v.items ≡ path_text self.now.steps) }
    {
        let mut text = Vec::new(alloc);
        'steps: for (i, step) in self.steps.items().iter().enumerate() {
            if i > 0 {
                text.push(b'.')?;
            }
            step.append_to(alloc, &mut text)?;
        }
        Ok(text)
    }

    /// The same path, whose names share their bytes.
    pub fn copy(&self, alloc: Global) -> Result<Path, NoMemory>
        ensures { IfOk result (λ p. p ≡ self.now) }
    {
        let mut steps = Vec::new(alloc);
        'steps: for step in self.steps.items() {
            steps.push(step.copy()?)?;
        }
        Ok(Path {
            steps: List::of(steps),
        })
    }
}
