//! What is known where the expression of a row stands.
ghost use Rattle.std.specs.Prelude.{◌≡◌, IfOk, option_map};
ghost use Rattle.sve_given.specs.Names.{text_at, entry_of};

use crate::entry::Entry;
use std::alloc::Global;
use sve_bytes::{Name, NoMemory};
use sve_diag::Code;
use sve_env::Env;
use sve_fault::{Fault, Fuel, Halted, Said};
use sve_tree::{ArgumentList, ScopedName, Word};
use sve_types::{Ty, Value};

/// The words of an expression, and the names of its row.
#[derive(Drop)]
pub struct Scope<'a> {
    /// The allocator.
    pub alloc: Global,
    /// The file.
    pub file: &'a Name,
    /// The words of the expression.
    pub words: &'a [Word],
    /// The names.
    pub names: &'a [Entry],
}

/// The bytes of a word by its number.
fn text_at(words: &[Word], token: u32) -> &[u8]
    ensures { result.now ≡ text_at words.now token }
{
    match words.get(token as usize) {
        Some(word) => word.bytes(),
        None => b"".as_slice(),
    }
}

/// The first entry of a name.
#[tactic(auto, using(crate::proofs::Search::entry_here, crate::proofs::Search::entry_later, crate::proofs::Search::entry_end))]
fn entry_of<'a>(names: &'a [Entry], text: &[u8]) -> Option<&'a Entry>
    ensures { option_map (λ e. e.now) result ≡ entry_of names.now text.now }
{
    'names: for entry in names {
        if entry.name.bytes() == text {
            return Some(entry);
        }
    }
    None
}

impl Env for Scope<'_> {
    ghost use Rattle.sve_given.specs.Names.{told_of};

    ghost told = { λ s. told_of s.file.now s.words.now s.names.now };

    fn file(&self) -> &Name {
        self.file
    }

    fn chunk(&self) -> u32 {
        0
    }

    fn text(&self, token: u32) -> &[u8] {
        text_at(self.words, token)
    }

    fn declared_before(&self, token: u32) -> Result<bool, NoMemory> {
        Ok(entry_of(self.names, text_at(self.words, token)).is_some())
    }

    fn constant(&self, name: ScopedName) -> Result<Result<Value, Fault>, NoMemory> {
        let text = text_at(self.words, name.name);
        match entry_of(self.names, text) {
            None => Ok(Err(Fault::about(self.alloc, name.name, Code::N01, text)?)),
            Some(entry) => match &entry.value {
                Some(value) => Ok(Ok(value.copy(self.alloc)?)),
                None => {
                    if entry.is_type {
                        return Ok(Err(Fault::about(self.alloc, name.name, Code::N11, text)?));
                    }
                    Ok(Err(Fault {
                        token: name.name,
                        said: Said::Nothing,
                    }))
                }
            },
        }
    }

    fn is_type(&self, name: ScopedName) -> bool {
        match entry_of(self.names, text_at(self.words, name.name)) {
            None => false,
            Some(entry) => entry.is_type,
        }
    }

    fn ty(&self, name: ScopedName) -> Result<Result<&Ty, Fault>, NoMemory> {
        let text = text_at(self.words, name.name);
        match entry_of(self.names, text) {
            None => Ok(Err(Fault::about(self.alloc, name.name, Code::N01, text)?)),
            Some(entry) => Ok(Ok(&entry.ty)),
        }
    }

    fn call(
        &self,
        name: ScopedName,
        _arguments: &ArgumentList,
        _fuel: &mut Fuel,
    ) -> Result<Result<Value, Fault>, Halted> {
        Ok(Err(Fault::at(name.name, Code::C01)))
    }
}
