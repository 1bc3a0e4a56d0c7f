//! The files of one revision as the texts that an expansion reads.
use std::alloc::Global;
use std::sync::Arc;
use sve_bytes::{List, Name};
use sve_prep::{Halt, Texts};
use sve_text::Files;

/// The files of one revision. They tell of each name its text, or that no file of it is there, and never halt but for
/// want of memory.
#[derive(Drop)]
pub struct FileTexts<'a> {
    pub alloc: Global,
    pub files: &'a Files,
}

impl<'a> Texts for FileTexts<'a> {
    ghost use Rattle.std.specs.Prelude.{◌≡◌, ℕ, List, Option, None, []};
    ghost use Rattle.sve_text.specs.Rows.{text_of};

    ghost tells = { λ texts name text. text ≡ text_of texts.files.now.rows name };

    ghost keeps = { λ old new. (name : List ℕ) (text : Option (List ℕ))
        → text ≡ text_of old.files.now.rows name → text ≡ text_of new.files.now.rows name };

    ghost halted = { λ texts. None };

    ghost stops = { λ texts. [] };

    ghost asked = { λ texts. None };

    ghost keeps_itself = { λ texts name text told. told };

    ghost keeps_on = { λ old now new first second name text told. second name text (first name text told) };

    fn text(&mut self, name: &Name) -> Result<Option<Arc<List<u8>>>, Halt> {
        Ok(self.files.shared_text(self.alloc, name)?)
    }
}
