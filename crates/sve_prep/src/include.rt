ghost use Rattle.std.specs.Prelude.{◌≡◌, ℕ, ◌+◌, ◌<◌, ◌≤◌, ◌++◌, length, List, Option, Some, None, IfOk, IfErr, OnOk, IsErr, nat_le, true};
ghost use Rattle.sve_unread.specs.Bytes.{ahead};
ghost use Rattle.sve_unread.specs.Head.{head_macros, head_level};
ghost use Rattle.sve_directive.specs.Directives.{cut};
ghost use Rattle.sve_prep.specs.Told.{TellSame, HasStopped};
ghost use Rattle.sve_prep.specs.State.{replace};
ghost use Rattle.sve_prep.specs.Includes.{include_text, include};
ghost use Rattle.sve_prep.specs.View.{Becomes, Leads, view, flow};
ghost use Rattle.sve_prep.specs.Halts.{StepsTo, HaltsAt};

use crate::name::{copies, name_of};
use crate::texts::Texts;
use crate::work::Work;
use std::alloc::Global;
use std::sync::Arc;
use sve_bytes::{List, Name, NoMemory, is_file_name};
use sve_diag::{Code, Place};
use sve_io::Halt;

/// An include at this level is refused (IEEE 1800-2017, 22.4, asks for 15 at least).
const REFUSED_LEVEL: u32 = 16;

/// The first 1,024 bytes, which a diagnostic may name; none where there is no byte.
fn cut(alloc: Global, bytes: &[u8]) -> Result<Option<Name>, NoMemory>
    ensures { IfOk result (λ name. name ≡ cut bytes.now) }
{
    if bytes.is_empty() {
        return Ok(None);
    }
    Ok(Some(name_of(alloc, &bytes[..bytes.len().min(1024)])?))
}

impl Work {
    /// Whether an include at the next byte has a level that is refused.
    fn is_too_far(&self) -> bool
        requires { 0 < length self.now.rest }
        ensures { result ≡ nat_le 15 (head_level self.now.rest) }
    {
        self.rest.level() >= REFUSED_LEVEL - 1
    }

    fn place_text(
        &mut self,
        alloc: Global,
        name: Name,
        count: usize,
        text: Arc<List<u8>>,
    ) -> Result<(), NoMemory>
        requires begun { 0 < length self.old.rest }
        requires within { count ≤ length (ahead self.old.rest) }
        requires paid { self.old.work + 1 + length text.value ≤ 4194304 }
        requires shallow { head_level self.old.rest < 15 }
        ensures { OnOk result (Becomes self.old self.new (λ s. replace count text.value (record { file = name; offset = 0; copied = true }) 1 (head_macros s.rest) (head_level s.rest + 1) s)) }
    {
        let macros = copies(alloc, self.rest.macros())?;
        let level = self.rest.level() + 1;
        let place = Place {
            file: name,
            offset: 0,
        };
        self.replace(count, text, place, true, 1, macros, level)
    }

    /// The text of an include. Whether the expansion goes on.
    fn include_text(
        &mut self,
        alloc: Global,
        name: Name,
        count: usize,
        text: Arc<List<u8>>,
    ) -> Result<bool, NoMemory>
        requires begun { 0 < length self.old.rest }
        requires within { count ≤ length (ahead self.old.rest) }
        requires bounded { self.old.work ≤ 4194304 }
        requires shallow { head_level self.old.rest < 15 }
        ensures { IfOk result (λ on. Leads on self.old self.new (include_text name count text.value)) }
    {
        if self.passes(text.items()) {
            self.give_up(alloc)?;
            return Ok(false);
        }
        self.place_text(alloc, name, count, text)?;
        Ok(true)
    }
}

/// An include of a file. Whether the expansion goes on (IEEE 1800-2017, 22.4).
pub fn include<T: Texts>(
    alloc: Global,
    texts: &mut T,
    work: &mut Work,
    file: &[u8],
    count: usize,
) -> Result<bool, Halt>
    requires begun { 0 < length work.old.rest }
    requires within { count ≤ length (ahead work.old.rest) }
    requires bounded { work.old.work ≤ 4194304 }
    ensures tells { TellSame (T.tells texts.old) (T.tells texts.new) }
    ensures keeps { T.keeps texts.old texts.new }
    ensures step { IfOk result (λ on. StepsTo (T.tells texts.old) (λ told. include told file.now count (view work.old (T.asked texts.old))) (flow on (view work.new (T.asked texts.new)))) }
    ensures not_halted { OnOk result (T.halted texts.new ≡ T.halted texts.old) }
    ensures halted { HaltsAt (T.tells texts.old) (T.halted texts.old) (T.halted texts.new) (T.asked texts.new) (IsErr result) (λ told. include told file.now count (view work.old (T.asked texts.old))) }
    ensures stopped { IfErr result (HasStopped (T.stops texts.old) (T.stops texts.new)) }
    ensures not_stopped { OnOk result (T.stops texts.new ≡ T.stops texts.old) }
{
    if work.is_too_far() {
        let arg = cut(alloc, file)?;
        work.refuse(Code::P09, arg, count)?;
        return Ok(true);
    }
    if !is_file_name(file) {
        let arg = cut(alloc, file)?;
        work.refuse(Code::P08, arg, count)?;
        return Ok(true);
    }
    let name = name_of(alloc, file)?;
    match texts.text(&name)? {
        None => {
            work.refuse(Code::P08, Some(name), count)?;
            Ok(true)
        }
        Some(text) => Ok(work.include_text(alloc, name, count, text)?),
    }
}
