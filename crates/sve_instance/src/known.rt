//! What is known around an instance.
ghost use Rattle.std.specs.Prelude.{◌≡◌, ◌∷◌, IfOk, map};
ghost use Rattle.sve_around.specs.Around.{seen_around};
ghost use Rattle.sve_instance.specs.Around.{seen_in, token_of_net};

use std::alloc::Global;
use sve_around::{Instances, Surroundings};
use sve_bytes::NoMemory;
use sve_connect::Net;
use sve_contents::Contents;
use sve_scoped::Text;

/// What is known around an instance at this token, where the text of a scope was read so far.
pub(crate) fn surroundings<'a, I: Instances>(
    alloc: Global,
    text: Text<'a>,
    contents: &'a Contents,
    instances: &'a I,
    at: u32,
) -> Surroundings<'a, I>
    ensures { seen_around result.file.now result.chunk result.words.now (result.scope.now ∷ result.around.now) result.packages.now result.at (I.interfaces result.instances.now) ≡ seen_in text.entry.packages.now text.entry.words.now (I.interfaces instances.now) at contents.now }
{
    Surroundings {
        alloc,
        file: &contents.scope.file,
        chunk: contents.scope.chunk,
        words: text.words,
        scope: &contents.scope,
        around: &contents.around,
        packages: text.packages,
        at,
        instances,
    }
}

/// The tokens of uses of names that declare nets.
pub(crate) fn tokens_of(alloc: Global, nets: &[Net]) -> Result<Vec<u32>, NoMemory>
    ensures { IfOk result (λ tokens. tokens.items ≡ map token_of_net nets.now) }
{
    let mut tokens = Vec::new(alloc);
    for net in nets {
        tokens.push(net.token)?;
    }
    Ok(tokens)
}
