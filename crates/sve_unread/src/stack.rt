ghost use Rattle.std.specs.Prelude.{◌≡◌, ℕ, ◌+◌, ◌<◌, ◌≤◌, ◌^◌, ◌↔◌, ◌++◌, [], length, drop, take, map, OnOk, OnErr, IsTrue, if◌then◌else◌};
ghost use Rattle.sve_origin.specs.Origins.{moved};
ghost use Rattle.sve_unread.specs.Bytes.{laid, ahead, cell, depth};
ghost use Rattle.sve_unread.specs.Head.{head_origin, head_line, head_macros, head_level, height, IsDeeper};

use crate::frame::Frame;
use std::alloc::{AllocFailed, Global};
use std::marker::Model;
use std::sync::Arc;
use sve_bytes::{List, Name, NoMemory};
use sve_diag::Place;
use sve_origin::Output;

/// The texts that are being read, seen as the bytes that are left, the next one first.
#[derive(Drop)]
pub struct Stack {
    /// The text that is read now stands last. None of them is at its end.
    texts: Vec<Frame>,
}

impl Model for Stack {
    ghost use Rattle.std.specs.Prelude.{List};
    ghost use Rattle.sve_unread.specs.Bytes.{Byte};

    ghost Value = { List Byte };

    ghost use Rattle.sve_unread.specs.Frames.{left_of_all, AreNested};

    ghost view = { λ s. left_of_all s.texts.items };

    ghost invariant = { λ s. AreNested s.texts.items };
}

impl Stack {
    ghost use Rattle.sve_unread.specs.Frames.{IsTop};
    ghost use Rattle.sve_unread.specs.Bytes.{laid, ahead, cell, depth};
    ghost use Rattle.sve_unread.specs.Head.{head_origin, head_line, head_macros, head_level, height, IsDeeper};

    /// No text. It takes no memory.
    pub fn new(alloc: Global) -> Stack
        ensures { result ≡ [] }
    {
        Stack {
            texts: Vec::new(alloc),
        }
    }

    /// Whether nothing is left.
    pub fn is_done(&self) -> bool
        ensures { IsTrue result ↔ (self.now ≡ []) }
    {
        self.texts.is_empty()
    }

    fn top(&self) -> &Frame
        requires { 0 < length self.now }
        ensures { IsTop result.now self.now }
    {
        &self.texts[self.texts.len() - 1]
    }

    /// What is left of the text that is being read.
    pub fn ahead(&self) -> &[u8]
        requires { 0 < length self.now }
        ensures { result.now ≡ ahead self.now }
    {
        let top = self.top();
        let text = top.text.items();
        &text[top.at..]
    }

    /// Goes on by some bytes of that text.
    pub fn skip(&mut self, count: usize)
        requires { count ≤ length (ahead self.old) }
        ensures rest { self.new ≡ drop count self.old }
        ensures lower { IsDeeper (height self.old + 1) self.new }
    {
        if count > 0 {
            let last = self.texts.len() - 1;
            let top = &mut self.texts[last];
            top.pass(count);
            if top.at == top.text.items().len() {
                self.texts.truncate(last);
            }
        }
    }

    /// Writes the next bytes of that text, at least one, with their origins.
    ///
    /// # Errors
    /// Only for want of memory; nothing is then written.
    pub fn write(&self, count: usize, out: &mut Output) -> Result<(), NoMemory>
        requires some { 0 < count }
        requires begun { 0 < length self.now }
        requires within { count ≤ length (ahead self.now) }
        requires room { length out.old + count < 2 ^ 32 }
        ensures written { OnOk result (out.new ≡ out.old ++ map cell (take count self.now)) }
        ensures kept { OnErr result (out.new ≡ out.old) }
    {
        let top = self.top();
        let text = top.text.items();
        let piece = &text[top.at..top.at + count];
        out.push(piece, &top.file, top.offset_now(), top.copied)
    }

    /// The file that the next byte comes from.
    pub fn file(&self) -> &Name
        requires { 0 < length self.now }
        ensures { result.now ≡ (head_origin self.now).file }
    {
        &self.top().file
    }

    /// The offset in that file, from 0.
    pub fn offset(&self) -> u32
        requires { 0 < length self.now }
        ensures { result ≡ (head_origin self.now).offset }
    {
        self.top().offset_now()
    }

    /// The line in that file, from 1.
    pub fn line(&self) -> u32
        requires { 0 < length self.now }
        ensures { result ≡ head_line self.now }
    {
        self.top().line
    }

    /// The offset at which the text that is being read ends.
    pub fn end_offset(&self) -> u32
        requires { 0 < length self.now }
        ensures { result ≡ (moved (length (ahead self.now)) (head_origin self.now)).offset }
    {
        self.top().end_offset()
    }

    /// The macros from whose results the next byte comes, the innermost first.
    pub fn macros(&self) -> &[Name]
        requires { 0 < length self.now }
        ensures { result.now ≡ head_macros self.now }
    {
        self.top().macros.items()
    }

    /// How many includes lead to the next byte.
    pub fn level(&self) -> u32
        requires { 0 < length self.now }
        ensures { result ≡ head_level self.now }
    {
        self.top().level
    }

    /// How many texts are open around the one that is being read.
    pub fn depth(&self) -> usize
        requires { 0 < length self.now }
        ensures { result ≡ height self.now }
    {
        let top = self.top();
        top.macros.items().len() + top.level as usize
    }

    /// Opens a text, to be read before all that is left. Its first byte comes from this place and line; the others from
    /// the offsets and lines behind where it is copied from there, and else from the same place.
    ///
    /// # Errors
    /// Only for want of memory; the stack is then as before.
    pub fn open(
        &mut self,
        text: Arc<List<u8>>,
        place: Place,
        copied: bool,
        line: u32,
        macros: List<Name>,
        level: u32,
    ) -> Result<(), NoMemory>
        requires deeper { IsDeeper (length macros + level) self.old }
        requires shallow { length macros + level < 2 ^ 64 }
        requires short { length text.value < 2 ^ 32 }
        requires offsets { place.offset + (if copied then length text.value else 0) < 2 ^ 32 }
        requires lines { line + (if copied then length text.value else 0) < 2 ^ 32 }
        ensures opened { OnOk result
            (self.new ≡ laid text.value (record { file = place.file; offset = place.offset; copied = copied }) line macros level ++ self.old) }
        ensures kept { OnErr result (self.new ≡ self.old) }
    {
        if !text.items().is_empty() {
            let Place { file, offset } = place;
            let frame = Frame {
                text,
                at: 0,
                file,
                offset,
                copied,
                line,
                macros,
                level,
            };
            self.texts.push(frame)?;
        }
        Ok(())
    }
}
