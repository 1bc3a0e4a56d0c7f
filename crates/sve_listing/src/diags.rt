//! The list of the diagnostics.
ghost use Rattle.std.specs.Prelude.{◌≡◌, ◌≤◌, ◌++◌, ◌∷◌, [], IfOk, IfSome};
ghost use Rattle.sve_listing.specs.Lists.{file_text, line_in, diags_lines};

use crate::cut::{shown, with_more};
use crate::opened::Opened;
use std::alloc::Global;
use sve_bytes::NoMemory;
use sve_diag::{Diag, Place};
use sve_report::Lines;
use sve_text::Files;

/// The file of a place, open in front of the place: the one that is open, or opened anew.
fn opened_before(
    alloc: Global,
    files: &Files,
    opened: Option<Opened>,
    place: &Place,
) -> Result<Opened, NoMemory>
    requires { IfSome opened (λ o. o.text ≡ file_text files.now.rows o.file) }
    ensures text { IfOk result (λ o. o.text ≡ file_text files.now.rows o.file) }
    ensures file { IfOk result (λ o. o.file ≡ place.now.file) }
    ensures before { IfOk result (λ o. o.at ≤ place.now.offset) }
{
    if let Some(opened) = opened {
        if opened.is_before(place) {
            return Ok(opened);
        }
    }
    Opened::of(&place.file, files.shared_text(alloc, &place.file)?)
}

/// These lines and that of a diagnostic, whose file is then open at the diagnostic's place.
fn with_diag(
    alloc: Global,
    files: &Files,
    opened: Option<Opened>,
    lines: Lines,
    diag: &Diag,
) -> Result<(Lines, Opened), NoMemory>
    requires opened { IfSome opened (λ o. o.text ≡ file_text files.now.rows o.file) }
    ensures lines { IfOk result (λ x. x.0 ≡ lines ++ line_in (file_text files.now.rows diag.now.place.file) diag.now ∷ []) }
    ensures opened { IfOk result (λ x. x.1.text ≡ file_text files.now.rows x.1.file) }
{
    let opened = opened_before(alloc, files, opened, &diag.place)?.gone_to(diag.place.offset);
    let line = opened.line(alloc, diag)?;
    Ok((lines.with_line(&line)?, opened))
}

/// The lines of diagnostics, in their order: of each its place, as file, line and column, its code, and its argument, where it has
/// one. There are 1,000 at most; where there are more diagnostics, one line more says how many are left out. Where the
/// diagnostics stand in order, the texts of their files are gone through once.
///
/// # Errors
/// For want of memory alone.
pub fn diags_lines(alloc: Global, files: &Files, diags: &[Diag]) -> Result<Lines, NoMemory>
    ensures { IfOk result (λ lines. lines ≡ diags_lines files.now.rows diags.now) }
{
    let mut lines = Lines::none(alloc);
    let mut opened = None;
    'diags: for diag in shown(diags) {
        let (more, here) = with_diag(alloc, files, opened, lines, diag)?;
        lines = more;
        opened = Some(here);
    }
    with_more(alloc, lines, diags.len())
}
