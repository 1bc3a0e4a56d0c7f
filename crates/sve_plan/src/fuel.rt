ghost use Rattle.sve_fault.specs.Counts.{IsFuel, Counts};

use sve_fault::{Fuel, Halted};

/// So many more are counted. It refuses where there would be more than the most; the count stands at its last value, as that of one
/// node does.
pub fn spend_many(fuel: &mut Fuel, count: u64) -> Result<(), Halted>
    requires { IsFuel fuel.old }
    ensures { Counts result fuel.old fuel.new count }
{
    if count <= fuel.most - fuel.used {
        fuel.used += count;
        return Ok(());
    }
    if fuel.most < u64::MAX {
        return Err(Halted::Over);
    }
    fuel.used = u64::MAX;
    Ok(())
}
