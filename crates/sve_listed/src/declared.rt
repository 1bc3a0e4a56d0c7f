//! What the items of a body declare.
use sve_bytes::{Name, NoMemory, Path};
use sve_facts::BodyScope;
use sve_scope::{Declared, Spot, What};

/// What is declared at a path, and the token of its name.
#[derive(Drop)]
pub struct Thing {
    /// Its path from the body.
    pub path: Path,
    /// What it is.
    pub what: What,
    /// The token of its name.
    pub token: u32,
}

/// The token of this number in the text of a module.
pub fn spot(module: &Name, token: u32) -> Result<Spot, NoMemory> {
    Ok(Spot {
        file: module.copy()?,
        chunk: 0,
        token,
    })
}

/// Declares a thing in the scope around it, where there is one.
fn declare(module: &Name, scopes: &mut [BodyScope], thing: Thing) -> Result<(), NoMemory> {
    let Thing { path, what, token } = thing;
    let Some((last, outer)) = path.steps.items().split_last() else {
        return Ok(());
    };
    for part in scopes {
        if part.path.steps.items() == outer {
            part.scope.declare(Declared {
                name: last.name.copy()?,
                what,
                at: spot(module, token)?,
                from: token,
            })?;
            return Ok(());
        }
    }
    Ok(())
}

/// Declares each thing in the scope around it, where there is one.
pub fn declare_all(
    module: &Name,
    scopes: &mut [BodyScope],
    things: Vec<Thing>,
) -> Result<(), NoMemory> {
    for thing in things {
        declare(module, scopes, thing)?;
    }
    Ok(())
}
