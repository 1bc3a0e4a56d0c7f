//! Three kinds of key, of which one is read off the files and each other one is computed from the one before.
ghost use Rattle.std.specs.Prelude.{◌≡◌, true, refl, IfOk};
ghost use Rattle.std.proofs.Common.{sym};
ghost use Rattle.sve_toy.specs.Toy.{given_of, is_given, make_of, rank_of, reads_of, length_of, digit_of, told_of, asks_for, file_a};
ghost use Rattle.sve_toy.specs.Laws.{itself, before, behind, length_pairs, length_quads, pairs_quads, given_are_inputs, stamps_of_lengths, lower_first, needed_is_read, no_fuel, at_other_fuel};
ghost use Rattle.sve_text.specs.Rows.{text_of};
ghost use Rattle.sve_toy.specs.declared.kinds.Key.TheVariants.{Length, Pairs, Quads};

use std::alloc::{AllocError, Global};
use std::sync::Arc;
use sve_bytes::{BadName, List, Name, NoMemory};
use sve_store::{Answer, Ending, Fetch, Halt, Keyed, Kinds, Start};
use sve_text::Files;

/// A key.
#[derive(Clone, Copy, PartialEq, Eq, PartialOrd, Ord)]
pub enum Key {
    /// How many bytes the text of the file `a` has.
    Length,
    /// How many pairs of bytes that is.
    Pairs,
    /// How many pairs of pairs.
    Quads,
}

/// The kinds, with the count of the values that were computed.
#[derive(Drop)]
pub struct Toy {
    computes: u64,
}

/// The name of the file.
pub(crate) fn name_a(alloc: Global) -> Result<Name, NoMemory>
    ensures { IfOk result (λ name. name ≡ file_a) }
{
    match Name::of(alloc, b"a") {
        Ok(name) => Ok(name),
        Err(BadName::NoMemory) => Err(AllocError),
        Err(BadName::Empty) => unreachable!(),
        Err(BadName::TooLong(_)) => unreachable!(),
    }
}

/// How long the text of this name is, and 0 where there is none.
fn text_len(files: &Files, name: &Name) -> u64
    ensures { result ≡ length_of (text_of files.now.rows name.now) }
{
    match files.text(name) {
        Some(text) => text.len() as u64,
        None => 0,
    }
}

impl Keyed for Toy {
    type Key = Key;

    type Value = u64;

    ghost counted = { λ s. s.computes };

    ghost fits = { λ s files. true };

    ghost ranked = { rank_of };

    ghost is_input = { is_given };

    ghost given = { given_of };

    ghost serves = { λ v fuel. true };

    ghost read_at = { λ v fuel. v };

    fn computes(&self) -> u64 {
        self.computes
    }

    fn tick(&mut self) {
        self.computes = self.computes.saturating_add(1);
    }

    fn copy_key(_alloc: Global, k: &Key) -> Result<Key, NoMemory> {
        Ok(*k)
    }

    fn rank(k: &Key) -> u32 {
        match k {
            Key::Length => 0,
            Key::Pairs => 1,
            Key::Quads => 2,
        }
    }

    fn input(
        &self,
        alloc: Global,
        k: &Key,
        files: &Files,
    ) -> Result<Option<(Arc<u64>, u64)>, NoMemory> {
        match k {
            Key::Length => {
                let name = name_a(alloc)?;
                let value = Arc::new(alloc, text_len(files, &name))?;
                Ok(Some((value, files.stamp(&name))))
            }
            Key::Pairs => Ok(None),
            Key::Quads => Ok(None),
        }
    }

    fn answers(_v: &u64, _fuel: u32) -> bool {
        true
    }

    fn same(a: &u64, b: &u64) -> bool {
        a == b
    }

    ghost one_key = { elim [
      | Length ↦ elim [ Length ↦ itself Length | Pairs ↦ before Length Pairs length_pairs | Quads ↦ before Length Quads length_quads ]
      | Pairs ↦ elim [ Length ↦ behind Pairs Length (λ e. length_pairs (sym e)) | Pairs ↦ itself Pairs | Quads ↦ before Pairs Quads pairs_quads ]
      | Quads ↦ elim [ Length ↦ behind Quads Length (λ e. length_quads (sym e)) | Pairs ↦ behind Quads Pairs (λ e. pairs_quads (sym e)) | Quads ↦ itself Quads ]
    ] };

    ghost lower_fuel = { λ v f g low serves. refl };

    ghost inputs = { given_are_inputs };

    ghost stamps = { stamps_of_lengths };
}

impl Kinds for Toy {
    type Query = Key;

    ghost make = { make_of };

    ghost answers_over = { λ table query budget answer. answer ≡ told_of table query budget };

    ghost asks_over = { asks_for };

    fn compute<F: Fetch<Toy>>(
        alloc: Global,
        k: &Key,
        _fuel: u32,
        from: &mut F,
    ) -> Result<u64, Halt> {
        match k {
            Key::Length => unreachable!(),
            Key::Pairs => {
                let value = from.fetch(alloc, &Key::Length, 0)?;
                from.tick();
                Ok(*value / 2)
            }
            Key::Quads => {
                let value = from.fetch(alloc, &Key::Pairs, 0)?;
                from.tick();
                Ok(*value / 2)
            }
        }
    }

    fn answer<F: Fetch<Toy>>(
        alloc: Global,
        q: &Key,
        _budget: u32,
        from: &mut F,
    ) -> Result<Answer, Halt> {
        let value = from.fetch(alloc, q, 0)?;
        match digit(alloc, *value) {
            Ok(answer) => Ok(answer),
            Err(AllocError) => Err(Halt::NoMemory),
        }
    }

    ghost free = { λ k f told j needs g others. no_fuel j g others };

    ghost own_fuel = { λ files k f v is. (refl, refl) };

    ghost other_fuel = { λ files k f g v is serves. at_other_fuel ⟦<Key as Ord>⟧.cmp files k f g v is };
}

/// The last digit of a number, as one line.
fn digit(alloc: Global, number: u64) -> Result<Answer, NoMemory>
    ensures { IfOk result (λ answer. answer ≡ digit_of number) }
{
    let mut line = Vec::new(alloc);
    line.push(b'0' + (number % 10) as u8)?;
    let mut lines = Vec::new(alloc);
    lines.push(List::of(line))?;
    Ok(Answer::Done(List::of(lines)))
}

impl Ending for Toy {
    ghost height = { λ files. rank_of };

    ghost reads = { λ files k fuel. reads_of k };

    ghost lower = { lower_first ⟦<Key as Ord>⟧.cmp };

    ghost higher = { λ files k j low. low };

    ghost reading = { needed_is_read ⟦<Key as Ord>⟧.cmp };
}

impl Start for Toy {
    fn start(_files: &Files) -> Toy {
        Toy { computes: 0 }
    }
}
