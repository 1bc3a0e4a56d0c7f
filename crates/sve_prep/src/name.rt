ghost use Rattle.std.specs.Prelude.{◌≡◌, ◌<◌, ◌≤◌, ◌++◌, ◌∷◌, length, IfOk};

use std::alloc::{AllocError, Global};
use sve_bytes::{BadName, List, Name, NoMemory};

/// The name that the bytes are, of which there are as many as a name may have.
pub fn name_of(alloc: Global, bytes: &[u8]) -> Result<Name, NoMemory>
    requires some { 0 < length bytes.now }
    requires short { length bytes.now ≤ 1024 }
    ensures { IfOk result (λ name. name ≡ bytes.now) }
{
    match Name::of(alloc, bytes) {
        Ok(name) => Ok(name),
        Err(BadName::NoMemory) => Err(AllocError),
        Err(BadName::Empty) => unreachable!(),
        Err(BadName::TooLong(_)) => unreachable!(),
    }
}

/// These names, and behind them copies of others.
fn with_copies(names: Vec<Name>, others: &[Name]) -> Result<Vec<Name>, NoMemory>
    ensures { IfOk result (λ all. all.items ≡ names.items ++ others.now) }
{
    let mut all = names;
    for other in others {
        all.push(other.copy()?)?;
    }
    Ok(all)
}

/// Copies of these names.
pub fn copies(alloc: Global, names: &[Name]) -> Result<List<Name>, NoMemory>
    ensures { IfOk result (λ all. all ≡ names.now) }
{
    Ok(List::of(with_copies(Vec::new(alloc), names)?))
}

/// A name, and behind it copies of others.
pub fn with_name(alloc: Global, name: Name, others: &[Name]) -> Result<List<Name>, NoMemory>
    ensures { IfOk result (λ all. all ≡ name ∷ others.now) }
{
    let mut all = Vec::with_capacity(alloc, others.len() + 1)?;
    all.push(name)?;
    Ok(List::of(with_copies(all, others)?))
}
