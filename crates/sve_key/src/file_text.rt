ghost use Rattle.std.specs.Prelude.{◌≡◌, IfOk, IfSome, option_map};
ghost use Rattle.std.specs.Arc.{arc_value};
ghost use Rattle.sve_text.specs.Rows.{IsInLimit};
ghost use Rattle.sve_prep.specs.Told.{IsShort, text_in};

use std::marker::Model;
use std::sync::Arc;
use sve_bytes::{List, NoMemory};

/// The text of a file of at most 1,048,576 bytes, or that it is not there, and the revision whose commit last touched it. Copies
/// share the text.
pub struct FileText {
    text: Option<Arc<List<u8>>>,
    stamp: u64,
}

impl Drop for FileText {
    fn drop(self) {
        let FileText { text: _, stamp: _ } = self;
    }
}

impl Model for FileText {
    ghost use Rattle.std.specs.Prelude.{option_map, IfSome};
    ghost use Rattle.std.specs.Arc.{arc_value};
    ghost use Rattle.sve_text.specs.Rows.{IsInLimit};
    ghost use Rattle.sve_key.specs.Parts.{TextValue};

    ghost Value = { TextValue };

    ghost view = { λ t. record { text = option_map arc_value t.text; stamp = t.stamp } };

    ghost invariant = { λ t. IfSome t.text (λ shared. IsInLimit (arc_value shared)) };
}

impl FileText {
    /// This text with this stamp. It takes no memory.
    pub fn of(text: Option<Arc<List<u8>>>, stamp: u64) -> FileText
        requires { IfSome text (λ shared. IsInLimit (arc_value shared)) }
        ensures { result ≡ record { text = option_map arc_value text; stamp = stamp } }
    {
        FileText { text, stamp }
    }

    /// The text, shared.
    ///
    /// # Errors
    /// For want of memory alone.
    pub fn share(&self) -> Result<Option<Arc<List<u8>>>, NoMemory>
        ensures text { IfOk result (λ text. text_in text ≡ self.now.text) }
        ensures short { IfOk result IsShort }
    {
        match &self.text {
            Some(text) => Ok(Some(Arc::try_clone(text)?)),
            None => Ok(None),
        }
    }

    /// The bytes, where the file is there. It takes no memory.
    pub fn bytes(&self) -> Option<&[u8]>
        ensures { option_map (λ bytes. bytes.now) result ≡ self.now.text }
    {
        match &self.text {
            Some(text) => Some(text.items()),
            None => None,
        }
    }

    /// The stamp. It takes no memory.
    pub fn stamp(&self) -> u64
        ensures { result ≡ self.now.stamp }
    {
        self.stamp
    }
}
