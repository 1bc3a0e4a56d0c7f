//! Commits, one after another.
ghost use Rattle.std.specs.Prelude.{◌≡◌, ◌<◌, ◌^◌, length};
ghost use Rattle.sve_session.specs.Passes.{IsReady, IsNext};
ghost use Rattle.sve_calls.specs.SameEdits.{same_edits};

use std::alloc::Global;
use std::sync::Wait;
use sve_board::Pass;
use sve_bytes::NoMemory;
use sve_sample::{Texts, show_commit};
use sve_session::{Plan, Session};
use sve_text::Edit;

/// Makes so many commits of the pass's client, as its commands 1 and on, each with these edits, and adds what they were told.
pub fn commits<P: Plan, R: Wait>(
    rt: &R,
    alloc: Global,
    session: &Session<Texts, P>,
    pass: &mut Pass,
    edits: &[Edit],
    count: u32,
    out: &mut String,
) -> Result<(), NoMemory>
    requires plan { P.table ≡ same_edits edits.now }
    requires few { length edits.now < 2 ^ 32 }
    requires pass { IsReady P.board.table pass.old }
    requires next { IsNext pass.old 1 }
    ensures { IsReady P.board.table pass.new }
{
    for j in 0..count {
        let told = session.commit(rt, alloc, pass, j + 1, edits)?;
        show_commit(out, told)?;
        out.push_str("; ")?;
    }
    Ok(())
}
