ghost use Rattle.std.specs.Prelude.{◌≡◌, IfOk};
ghost use Rattle.sve_fault.specs.Faults.{fault_about};
ghost use Rattle.sve_type_rule.specs.Ranges.{noted};

use std::alloc::Global;
use sve_bytes::NoMemory;
use sve_diag::Code;
use sve_fault::Fault;

/// Faults, and behind them one that names a text, unless all is fine.
pub(crate) fn noted(
    alloc: Global,
    is_fine: bool,
    token: u32,
    code: Code,
    name: &[u8],
    faults: Vec<Fault>,
) -> Result<Vec<Fault>, NoMemory>
    ensures { IfOk result (λ f. f.items ≡ noted is_fine (fault_about token code name.now) faults.items) }
{
    if is_fine {
        return Ok(faults);
    }
    let mut faults = faults;
    faults.push(Fault::about(alloc, token, code, name)?)?;
    Ok(faults)
}
