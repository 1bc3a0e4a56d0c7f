ghost use Rattle.std.specs.Prelude.{◌≡◌, ℕ, ◌+◌, ◌<◌, ◌≤◌, ◌++◌, ◌∷◌, [], length, List, Option, Some, None, IfOk, IfErr, OnOk, IsErr};
ghost use Rattle.sve_prep.specs.Told.{Told, Holds, Matches, TellSame, HasStopped, IsShort, text_in, noted};
ghost use Rattle.sve_prep.specs.Expansion.{expand, fresh, begin_with};
ghost use Rattle.sve_prep.specs.View.{view};
ghost use Rattle.sve_prep.specs.Answer.{text_or_empty, Expands};
ghost use Rattle.sve_prep.specs.Halts.{IsWanting};

use crate::advance::advance;
use crate::texts::Texts;
use crate::work::Work;
use std::alloc::Global;
use std::sync::Arc;
use sve_bytes::{List, Name, NetType, NoMemory};
use sve_diag::Place;
use sve_io::Halt;
use sve_macro::Table;
use sve_origin::{Expanded, Output};
use sve_unread::Stack;

/// The state before the first byte of a text.
fn new_work(alloc: Global, root: &Name, text: Option<Arc<List<u8>>>) -> Result<Work, NoMemory>
    requires { IsShort text }
    ensures named { IfOk result (λ _. length root.now ≤ 1024) }
    ensures begun { IfOk result (λ work. (asked : Option (List (List ℕ))) → view work (noted root.now asked) ≡ begin_with fresh asked root.now (text_or_empty (text_in text))) }
{
    // A name has 1,024 bytes at most, which only its bytes say.
    let _name = root.bytes();
    let mut rest = Stack::new(alloc);
    let mut work = 0;
    if let Some(text) = text {
        work = text.items().len() as u32;
        let place = Place {
            file: root.copy()?,
            offset: 0,
        };
        rest.open(text, place, true, 1, List::of(Vec::new(alloc)), 0)?;
    }
    Ok(Work {
        rest,
        table: Table::new(alloc),
        conditions: Vec::new(alloc),
        work,
        net_type: NetType::Wire,
        out: Output::new(alloc),
        diags: Vec::new(alloc),
        net_types: Vec::new(alloc),
    })
}

/// The expansion of a file (IEEE 1800-2017, clause 22): its text with the directives followed, its macros replaced and its
/// includes put in place, each byte with where it comes from; the diagnostics, in the order in which they were found; and
/// the net types that were set. A file that is not there is as an empty one.
///
/// It is what the definition gives over whatever the object tells, and the object is asked for exactly the names that the
/// definition asks for, absent ones included.
///
/// # Errors
/// `Stopped` only where the object stopped the call. Where the object halted for want of a text, it is one that the
/// definition needs.
pub fn prep<T: Texts>(alloc: Global, texts: &mut T, root: &Name) -> Result<Expanded, Halt>
    ensures tells { TellSame (T.tells texts.old) (T.tells texts.new) }
    ensures keeps { T.keeps texts.old texts.new }
    ensures done { (told : Told) → Holds told (T.tells texts.old) → IfOk result (λ e.
        Expands (expand told fresh (T.asked texts.old) root.now) e (T.asked texts.new)) }
    ensures not_halted { OnOk result (T.halted texts.new ≡ T.halted texts.old) }
    ensures halted { (told : Told) → Matches told (T.tells texts.old) → T.halted texts.old ≡ None → (name : List ℕ) → T.halted texts.new ≡ Some name
        → IsErr result × IsWanting name (T.asked texts.new) (expand told fresh (T.asked texts.old) root.now) }
    ensures stopped { IfErr result (HasStopped (T.stops texts.old) (T.stops texts.new)) }
    ensures not_stopped { OnOk result (T.stops texts.new ≡ T.stops texts.old) }
{
    let text = texts.text(root)?;
    let mut work = new_work(alloc, root, text)?;
    let mut on = true;
    'steps: while on {
        on = advance(alloc, texts, &mut work)?;
    }
    let Work {
        rest: _,
        table: _,
        conditions: _,
        work: _,
        net_type: _,
        out,
        diags,
        net_types,
    } = work;
    Ok(Expanded::of(out, List::of(diags), List::of(net_types)))
}
