ghost use Rattle.std.specs.Prelude.{◌≡◌, OnOk};
ghost use Rattle.std.specs.List.{flat_map, fold};
ghost use Rattle.sve_simple_use.specs.Simple.{event_uses, event_value_uses};

use sve_bytes::NoMemory;
use sve_tree::{Event, EventControl};
use sve_use::{Resolver, names_in, names_in_selected};

/// The names in events.
#[tactic(auto, using(crate::proofs::Rows::event_step, crate::proofs::Rows::event_end, std::proofs::lemmas::Grind::common_steps))]
fn names_in_each<R: Resolver>(events: &[Event], names: &mut R) -> Result<(), NoMemory>
    ensures { OnOk result (names.new ≡ fold R.after names.old (flat_map event_value_uses events.now)) }
{
    'events: for event in events {
        names_in(&event.value, names)?;
    }
    Ok(())
}

/// The names that the events of a procedure use, in the order of the text, each with how it is used, are handed on
/// (IEEE 1800-2017, 9.4.2). It goes over them once.
///
/// # Errors
/// For want of memory alone.
pub fn names_in_events<R: Resolver>(control: &EventControl, names: &mut R) -> Result<(), NoMemory>
    ensures { OnOk result (names.new ≡ fold R.after names.old (event_uses control.now)) }
{
    match control {
        EventControl::Any { .. } | EventControl::AnyParenthesized { .. } => Ok(()),
        EventControl::Events { events, .. } => names_in_each(events.as_slice(), names),
        EventControl::Name { name, selects } => names_in_selected(*name, selects, names),
    }
}
