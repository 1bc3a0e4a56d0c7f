ghost use Rattle.std.specs.Prelude.{◌≡◌, OnOk};
ghost use Rattle.std.specs.List.{flat_map};
ghost use Rattle.sve_table.specs.Tables.{with_items};
ghost use Rattle.sve_index.specs.Instances.{instantiated, itself};

use crate::source::name_at;
use sve_bytes::{Name, NoMemory};
use sve_mention::Mention;
use sve_table::Table;
use sve_tree::Word;

/// Adds the name that a mention instantiates.
fn add_instance(words: &[Word], mention: Mention, names: &mut Table<Name>) -> Result<(), NoMemory>
    ensures { OnOk result (names.new ≡ with_items itself names.old (instantiated words.now mention)) }
{
    match mention {
        Mention::Instance { definition } => match name_at(words, definition) {
            Some(name) => {
                names.add(name.copy()?)?;
                Ok(())
            }
            None => Ok(()),
        },
        Mention::EndLabel { .. } => Ok(()),
    }
}

/// Adds the names that an element instantiates.
#[tactic(auto, using(crate::proofs::Added::with_items_append, std::proofs::lemmas::Grind::common_steps))]
pub(crate) fn add_instances(
    words: &[Word],
    mentions: &[Mention],
    names: &mut Table<Name>,
) -> Result<(), NoMemory>
    ensures { OnOk result (names.new ≡ with_items itself names.old (flat_map (instantiated words.now) mentions.now)) }
{
    for mention in mentions {
        add_instance(words, *mention, names)?;
    }
    Ok(())
}
