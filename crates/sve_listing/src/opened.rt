//! The text of a file, gone through from one place to the next.
ghost use Rattle.std.specs.Prelude.{◌≡◌, ◌≤◌, ◌↔◌, [], IfOk, IfSome, IsTrue, length, min};
ghost use Rattle.std.specs.Arc.{arc_value};
ghost use Rattle.sve_report.specs.Lines.{Lacks};
ghost use Rattle.sve_text.specs.Rows.{IsInLimit};
ghost use Rattle.sve_listing.specs.Lists.{line_in};
ghost use Rattle.sve_listing.specs.Places.{bytes_in};
ghost use Rattle.sve_listing.specs.Texts.{spot_line};

use crate::cut::on_one_line;
use crate::spot::{Spot, moved, start};
use std::alloc::Global;
use std::marker::Model;
use std::sync::Arc;
use sve_bytes::{List, Name, NoMemory};
use sve_diag::{Diag, Place};

/// A file that was opened, and how far its text was gone through.
#[derive(Drop)]
pub(crate) struct Opened {
    file: Name,
    text: Option<Arc<List<u8>>>,
    spot: Spot,
}

impl Model for Opened {
    ghost use Rattle.sve_listing.specs.Places.{OpenedValue, IsGoneThrough, bytes_in};

    ghost Value = { OpenedValue };

    ghost view = { λ o. record { file = o.file; text = bytes_in o.text; at = o.spot.at } };

    ghost invariant = { λ o. IsGoneThrough (bytes_in o.text) o.spot };
}

/// The bytes of a text that is there.
fn bytes_of(text: &Option<Arc<List<u8>>>) -> &[u8]
    ensures { result.now ≡ bytes_in text.now }
{
    match text {
        Some(text) => text.items(),
        None => &[],
    }
}

/// The line of a diagnostic whose place is this spot.
fn spot_line(alloc: Global, diag: &Diag, spot: Spot) -> Result<Vec<u8>, NoMemory>
    ensures { IfOk result (λ line. line.items ≡ spot_line diag.now spot) }
{
    let Spot { line, column, .. } = spot;
    let position = format!(in alloc; ":{line}:{column}: ")?;
    let mut shown = Vec::from_slice(alloc, diag.place.file.bytes())?;
    shown.extend_from_slice(position.as_bytes())?;
    shown.extend_from_slice(diag.code.spelling())?;
    if let Some(arg) = &diag.arg {
        shown.push(b' ')?;
        shown.extend_from_slice(arg.bytes())?;
    }
    Ok(shown)
}

impl Opened {
    /// A file with this text, at its start. One that is not there has no bytes.
    pub(crate) fn of(file: &Name, text: Option<Arc<List<u8>>>) -> Result<Opened, NoMemory>
        requires in_limit { IfSome text (λ shared. IsInLimit (arc_value shared)) }
        ensures { IfOk result (λ o. o ≡ record { file = file.now; text = bytes_in text; at = 0 }) }
    {
        let spot = start(bytes_of(&text));
        Ok(Opened {
            file: file.copy()?,
            text,
            spot,
        })
    }

    /// Whether the place is in this file, and not in front of where the text was gone through to.
    pub(crate) fn is_before(&self, place: &Place) -> bool
        ensures { IsTrue result ↔ (self.now.file ≡ place.now.file) × (self.now.at ≤ place.now.offset) }
    {
        self.file == place.file && self.spot.at <= place.offset as usize
    }

    /// Goes on to an offset, or to the end of the text.
    pub(crate) fn gone_to(self, offset: u32) -> Opened
        requires before { self.at ≤ offset }
        ensures { result ≡ record { file = self.file; text = self.text; at = min offset (length self.text) } }
    {
        let Opened { file, text, spot } = self;
        let bytes = bytes_of(&text);
        let spot = moved(bytes, spot, (offset as usize).min(bytes.len()));
        Opened { file, text, spot }
    }

    /// The line of a diagnostic at whose place it is: the place, as file, line and column, the code, and the argument, where it
    /// has one. A place behind the end of its file, which none has, is shown at the end.
    pub(crate) fn line(&self, alloc: Global, diag: &Diag) -> Result<Vec<u8>, NoMemory>
        requires here { self.now.at ≡ min diag.now.place.offset (length self.now.text) }
        ensures line { IfOk result (λ line. line.items ≡ line_in self.now.text diag.now) }
        ensures one_line { IfOk result (λ line. Lacks 10 line.items) }
    {
        let line = spot_line(alloc, diag, self.spot)?;
        Ok(on_one_line(line))
    }
}
