ghost use Rattle.std.specs.Prelude.{◌≡◌, ℕ, ◌+◌, ◌<◌, ◌≤◌, ◌^◌, length, List, Option, Some, None, IfOk, IfErr, OnOk, IsErr, IsTrue};
ghost use Rattle.sve_unread.specs.Bytes.{ahead};
ghost use Rattle.sve_directive.specs.Bytes.{begins_with};
ghost use Rattle.sve_prep.specs.Told.{TellSame, HasStopped};
ghost use Rattle.sve_prep.specs.Step.{step_head, step_backtick, step_text, step};
ghost use Rattle.sve_prep.specs.View.{view, flow, Fits};
ghost use Rattle.sve_prep.specs.Halts.{StepsTo, HaltsAt};

use crate::include::include;
use crate::texts::Texts;
use crate::work::Work;
use std::alloc::Global;
use sve_directive::{Directive, begins_conditional, plain_len, read_directive};
use sve_io::Halt;

/// A directive or a use. Whether the expansion goes on.
fn step_head<T: Texts>(
    alloc: Global,
    texts: &mut T,
    work: &mut Work,
    directive: Directive,
    count: usize,
) -> Result<bool, Halt>
    requires begun { 0 < length work.old.rest }
    requires within { count ≤ length (ahead work.old.rest) }
    requires bounded { work.old.work ≤ 4194304 }
    requires room { length work.old.out + 1026 < 2 ^ 32 }
    ensures tells { TellSame (T.tells texts.old) (T.tells texts.new) }
    ensures keeps { T.keeps texts.old texts.new }
    ensures step { IfOk result (λ on. StepsTo (T.tells texts.old) (λ told. step_head told directive count (view work.old (T.asked texts.old))) (flow on (view work.new (T.asked texts.new)))) }
    ensures not_halted { OnOk result (T.halted texts.new ≡ T.halted texts.old) }
    ensures halted { HaltsAt (T.tells texts.old) (T.halted texts.old) (T.halted texts.new) (T.asked texts.new) (IsErr result) (λ told. step_head told directive count (view work.old (T.asked texts.old))) }
    ensures stopped { IfErr result (HasStopped (T.stops texts.old) (T.stops texts.new)) }
    ensures not_stopped { OnOk result (T.stops texts.new ≡ T.stops texts.old) }
{
    match directive {
        Directive::Include(name) => include(alloc, texts, work, name.items(), count),
        Directive::Local(directive) => Ok(work.follow(alloc, directive, count)?),
    }
}

/// What begins with a backtick. Whether the expansion goes on.
fn step_backtick<T: Texts>(alloc: Global, texts: &mut T, work: &mut Work) -> Result<bool, Halt>
    requires begun { 0 < length work.old.rest }
    requires backtick { IsTrue (begins_with 96 (ahead work.old.rest)) }
    requires bounded { work.old.work ≤ 4194304 }
    requires room { length work.old.out + 1026 < 2 ^ 32 }
    ensures tells { TellSame (T.tells texts.old) (T.tells texts.new) }
    ensures keeps { T.keeps texts.old texts.new }
    ensures step { IfOk result (λ on. StepsTo (T.tells texts.old) (λ told. step_backtick told (ahead work.old.rest) (view work.old (T.asked texts.old))) (flow on (view work.new (T.asked texts.new)))) }
    ensures not_halted { OnOk result (T.halted texts.new ≡ T.halted texts.old) }
    ensures halted { HaltsAt (T.tells texts.old) (T.halted texts.old) (T.halted texts.new) (T.asked texts.new) (IsErr result) (λ told. step_backtick told (ahead work.old.rest) (view work.old (T.asked texts.old))) }
    ensures stopped { IfErr result (HasStopped (T.stops texts.old) (T.stops texts.new)) }
    ensures not_stopped { OnOk result (T.stops texts.new ≡ T.stops texts.old) }
{
    let text = work.rest.ahead();
    if work.is_skipped(text) {
        work.rest.skip(1);
        return Ok(true);
    }
    let (directive, count) = read_directive(alloc, text)?;
    step_head(alloc, texts, work, directive, count)
}

/// What stands leftmost in the text that is read. Whether the expansion goes on.
fn step_text<T: Texts>(alloc: Global, texts: &mut T, work: &mut Work) -> Result<bool, Halt>
    requires begun { 0 < length work.old.rest }
    requires fits { Fits (view work.old (T.asked texts.old)) }
    ensures tells { TellSame (T.tells texts.old) (T.tells texts.new) }
    ensures keeps { T.keeps texts.old texts.new }
    ensures step { IfOk result (λ on. StepsTo (T.tells texts.old) (λ told. step_text told (ahead work.old.rest) (view work.old (T.asked texts.old))) (flow on (view work.new (T.asked texts.new)))) }
    ensures not_halted { OnOk result (T.halted texts.new ≡ T.halted texts.old) }
    ensures halted { HaltsAt (T.tells texts.old) (T.halted texts.old) (T.halted texts.new) (T.asked texts.new) (IsErr result) (λ told. step_text told (ahead work.old.rest) (view work.old (T.asked texts.old))) }
    ensures stopped { IfErr result (HasStopped (T.stops texts.old) (T.stops texts.new)) }
    ensures not_stopped { OnOk result (T.stops texts.new ≡ T.stops texts.old) }
{
    let plain = plain_len(work.rest.ahead());
    if plain > 0 {
        work.copy(plain)?;
        return Ok(true);
    }
    step_backtick(alloc, texts, work)
}

/// One step. Whether the expansion goes on.
pub fn advance<T: Texts>(alloc: Global, texts: &mut T, work: &mut Work) -> Result<bool, Halt>
    requires fits { Fits (view work.old (T.asked texts.old)) }
    ensures tells { TellSame (T.tells texts.old) (T.tells texts.new) }
    ensures keeps { T.keeps texts.old texts.new }
    ensures step { IfOk result (λ on. StepsTo (T.tells texts.old) (λ told. step told (view work.old (T.asked texts.old))) (flow on (view work.new (T.asked texts.new)))) }
    ensures not_halted { OnOk result (T.halted texts.new ≡ T.halted texts.old) }
    ensures halted { HaltsAt (T.tells texts.old) (T.halted texts.old) (T.halted texts.new) (T.asked texts.new) (IsErr result) (λ told. step told (view work.old (T.asked texts.old))) }
    ensures stopped { IfErr result (HasStopped (T.stops texts.old) (T.stops texts.new)) }
    ensures not_stopped { OnOk result (T.stops texts.new ≡ T.stops texts.old) }
{
    if work.is_left() {
        work.close()?;
        return Ok(true);
    }
    if work.rest.is_done() {
        return Ok(false);
    }
    step_text(alloc, texts, work)
}
