ghost use Rattle.std.specs.Prelude.{◌≡◌, IfOk};

use std::marker::Model;
use sve_bytes::{Name, NoMemory};
use sve_rope::Text;

/// What stands at a name. Copies share the text.
#[derive(Drop)]
pub(crate) struct StoredRow {
    pub(crate) name: Name,
    pub(crate) text: Option<Text>,
    pub(crate) stamp: u64,
}

impl Model for StoredRow {
    ghost use Rattle.sve_text.specs.Rows.{Row};

    ghost Value = { Row };

    ghost view = { λ s. record { name = s.name; text = s.text; stamp = s.stamp } };
}

impl StoredRow {
    /// The same row, which shares its name and its text.
    pub(crate) fn share(&self) -> Result<StoredRow, NoMemory>
        ensures { IfOk result (λ s. s ≡ self.now) }
    {
        let text = match &self.text {
            Some(text) => Some(text.share()?),
            None => None,
        };
        Ok(StoredRow {
            name: self.name.copy()?,
            text,
            stamp: self.stamp,
        })
    }
}
