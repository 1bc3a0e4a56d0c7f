//! Kinds whose keys are the names of files: what is asked is a file's text.
ghost use Rattle.std.specs.Prelude.{◌≡◌, ℕ, List, [], true, refl, IfOk};
ghost use Rattle.sve_bytes.specs.FileName.{is_file_name_of};
ghost use Rattle.sve_sample.specs.Texts.{text_at, made, lines_of, told_of, asks_for};
ghost use Rattle.sve_sample.specs.Laws.{same_name, some_of_files, stamps_of_texts, no_lower, no_reading, at_other_fuel};

use std::alloc::{AllocError, Global};
use std::marker::Model;
use std::sync::Arc;
use sve_bytes::{List, Name, NoMemory, is_file_name};
use sve_store::{Answer, Ending, Fetch, Halt, Keyed, Kinds, Start};
use sve_text::Files;

/// The text of a file, if the file is there.
#[derive(Drop)]
pub struct Content {
    text: Option<Arc<List<u8>>>,
}

impl Model for Content {
    ghost use Rattle.std.specs.Prelude.{ℕ, List, Option, option_map};
    ghost use Rattle.std.specs.Arc.{arc_value};

    ghost Value = { Option (List ℕ) };

    ghost view = { λ c. option_map arc_value c.text };
}

/// The kinds, with the count of the values that were computed.
#[derive(Drop)]
pub struct Texts {
    computes: u64,
}

impl Keyed for Texts {
    type Key = Name;

    type Value = Content;

    ghost counted = { λ s. s.computes };

    ghost fits = { λ s files. true };

    ghost ranked = { λ k. 0 };

    // A name that no file may have is computed: no text is there.
    ghost is_input = { is_file_name_of };

    ghost given = { text_at };

    ghost serves = { λ v fuel. true };

    ghost read_at = { λ v fuel. v };

    fn computes(&self) -> u64 {
        self.computes
    }

    fn tick(&mut self) {
        self.computes = self.computes.saturating_add(1);
    }

    fn copy_key(_alloc: Global, k: &Name) -> Result<Name, NoMemory> {
        k.copy()
    }

    fn rank(_k: &Name) -> u32 {
        0
    }

    fn input(
        &self,
        alloc: Global,
        k: &Name,
        files: &Files,
    ) -> Result<Option<(Arc<Content>, u64)>, NoMemory> {
        if !is_file_name(k.bytes()) {
            return Ok(None);
        }
        let text = files.shared_text(alloc, k)?;
        Ok(Some((Arc::new(alloc, Content { text })?, files.stamp(k))))
    }

    fn answers(_v: &Content, _fuel: u32) -> bool {
        true
    }

    fn same(a: &Content, b: &Content) -> bool {
        match (&a.text, &b.text) {
            (None, None) => true,
            (Some(first), Some(second)) => first.items() == second.items(),
            _ => false,
        }
    }

    ghost one_key = { same_name };

    ghost lower_fuel = { λ v f g low serves. refl };

    ghost inputs = { some_of_files };

    ghost stamps = { stamps_of_texts };
}

impl Kinds for Texts {
    type Query = Name;

    ghost make = { made };

    ghost answers_over = { λ table query budget answer. answer ≡ told_of table query budget };

    ghost asks_over = { asks_for };

    fn compute<F: Fetch<Texts>>(
        _alloc: Global,
        _k: &Name,
        _fuel: u32,
        from: &mut F,
    ) -> Result<Content, Halt> {
        from.tick();
        Ok(Content { text: None })
    }

    fn answer<F: Fetch<Texts>>(
        alloc: Global,
        q: &Name,
        budget: u32,
        from: &mut F,
    ) -> Result<Answer, Halt> {
        let content = from.fetch(alloc, q, 0)?;
        match answer_of(alloc, &content, budget) {
            Ok(answer) => Ok(answer),
            Err(AllocError) => Err(Halt::NoMemory),
        }
    }

    ghost free = { λ k f told j needs g others. refl };

    ghost own_fuel = { λ files k f v is. (refl, refl) };

    ghost other_fuel = { at_other_fuel };
}

/// What is told of this content within a budget.
fn answer_of(alloc: Global, content: &Content, budget: u32) -> Result<Answer, NoMemory>
    ensures { IfOk result (λ answer. answer ≡ lines_of budget content.now) }
{
    let Some(text) = &content.text else {
        return Ok(Answer::Done(List::of(Vec::new(alloc))));
    };
    if text.items().len() > budget as usize {
        return Ok(Answer::Spent);
    }
    let mut lines = Vec::new(alloc);
    lines.push(List::of(text.items().to_vec(alloc)?))?;
    Ok(Answer::Done(List::of(lines)))
}

impl Ending for Texts {
    ghost height = { λ files k. 0 };

    ghost reads = { λ files k fuel. [] };

    ghost lower = { no_lower };

    ghost higher = { λ files k j low. low };

    ghost reading = { no_reading };
}

impl Start for Texts {
    fn start(_files: &Files) -> Texts {
        Texts { computes: 0 }
    }
}
