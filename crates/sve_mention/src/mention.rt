ghost use Rattle.std.specs.Prelude.{◌≡◌, ◌++◌, OnOk};
ghost use Rattle.sve_mention.specs.Labels.{end_label, label_name};

use sve_bytes::NoMemory;
use sve_tree::Label;

/// A name that stands for something outside of the part of a tree that holds it. Tokens are named by their numbers in the chunk.
#[derive(Clone, Copy)]
pub enum Mention {
    /// An instantiation names a module or an interface (IEEE 1800-2017, 23.3.2).
    Instance {
        /// The name of the module or of the interface.
        definition: u32,
    },
    /// A label behind an end word, which has to repeat the name of what ends (9.3.4, 13.4, 23.2, 25.3, 26.2 and 27.6).
    EndLabel {
        /// The name of what ends; a block may have none.
        name: Option<u32>,
        /// The label.
        label: u32,
    },
}

/// Adds the label behind an end word, where one is written, with the name of what ends.
pub(crate) fn add_end_label(
    name: Option<u32>,
    label: &Option<Label>,
    found: &mut Vec<Mention>,
) -> Result<(), NoMemory>
    ensures { OnOk result (found.new.items ≡ found.old.items ++ end_label name label.now) }
{
    if let Some(label) = label {
        found.push(Mention::EndLabel {
            name,
            label: label.name,
        })?;
    }
    Ok(())
}

/// The name that a block's label gives it.
pub(crate) fn label_name(label: &Option<Label>) -> Option<u32>
    ensures { result ≡ label_name label.now }
{
    match label {
        Some(label) => Some(label.name),
        None => None,
    }
}
