//! Rows of calls.
ghost use Rattle.sve_history.specs.Histories.{IsOpening};

use crate::running::{Row, Turns, run};
use std::alloc::Global;
use std::sync::Wait;
use sve_bytes::{Name, NoMemory};
use sve_row::{Table, field, name_of, offset_of, word};
use sve_sample::{files_of, text_of};
use sve_text::{Edit, Files, Mode};

/// The rows of this table. Each of their commits puts the file `a` with `TEXT`.
///
/// * `commits MOST COUNT | FILES | TEXT` lets client 2 of a session, whose history may have `MOST` entries, commit `COUNT` times.
/// * `latest COUNT | FILES | TEXT` and `pinned COUNT | FILES | TEXT` let client 1 begin an ask for the text of `a` in this mode, and
///   client 2 commit `COUNT` times, before the ask is worked off. Then client 1 begins another ask.
/// * `shared NAME | FILES | TEXT` lets client 1 ask twice for the text of `NAME`, client 2 commit once, and both ask again, and says
///   how many values each ask computed. The text of a name that no file may have is computed, and that of any other is not.
///
/// The answer says what each call told, and how many entries the history has in the end.
#[derive(Drop)]
pub struct Calls<'a, R> {
    /// What waits for the lock of a session.
    pub rt: &'a R,
}

impl<R: Wait> Table for Calls<'_, R> {
    fn answer(&self, alloc: Global, kind: &str, row: &str) -> Result<Option<String>, NoMemory> {
        let (first, row) = field(row);
        let (files, text) = field(row);
        let asked = if kind == "shared" { word(first).0 } else { "a" };
        match (row_of(kind, first), files_of(alloc, files)?) {
            (Some(row), Some(files)) => told(self.rt, alloc, files, asked, text, row),
            _ => Ok(None),
        }
    }
}

/// What came of the calls of a row over these opening files, where this name is asked for and each commit puts this text.
fn told<R: Wait>(
    rt: &R,
    alloc: Global,
    files: Files,
    asked: &str,
    text: &str,
    row: Row,
) -> Result<Option<String>, NoMemory>
    requires { IsOpening files }
{
    let Some(name) = name_of(alloc, b"a")? else {
        return Ok(None);
    };
    let Some(asked) = name_of(alloc, asked.as_bytes())? else {
        return Ok(None);
    };
    let edit = put(alloc, &name, text)?;
    Ok(Some(run(rt, alloc, files, &asked, &edit, row)?))
}

/// The edit of a commit.
fn put(alloc: Global, name: &Name, text: &str) -> Result<Edit, NoMemory> {
    Ok(Edit::Put {
        name: name.copy()?,
        text: text_of(alloc, text)?,
    })
}

/// The calls of this kind.
fn row_of(kind: &str, first: &str) -> Option<Row> {
    match kind {
        "commits" => {
            let (most, count) = word(first);
            Some(Row {
                most: offset_of(most)?,
                count: offset_of(count)?,
                turns: Turns::Commits,
            })
        }
        "latest" => asks(Mode::Latest, first),
        "pinned" => asks(Mode::Pinned, first),
        "shared" => Some(Row {
            most: 1,
            count: 1,
            turns: Turns::Asks,
        }),
        _ => None,
    }
}

/// An ask in this mode, and so many commits, for all of which there is room.
fn asks(mode: Mode, count: &str) -> Option<Row> {
    let count = offset_of(count)?;
    Some(Row {
        most: count,
        count,
        turns: Turns::Between(mode),
    })
}
