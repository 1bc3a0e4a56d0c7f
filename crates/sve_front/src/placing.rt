//! What stands at the tokens of units.
ghost use Rattle.std.specs.Prelude.{◌≡◌, IfOk};
ghost use Rattle.sve_front.specs.Places.{net_type_in, token_place_in};
ghost use Rattle.sve_front.specs.Readings.{AreCut};

use crate::unit::{Unit, chunk_tokens};
use sve_bytes::{Name, NetType, NoMemory};
use sve_diag::Place;
use sve_table::Table;
use sve_unit::place_at;

/// Where the token of a number stands in a chunk of a file, both counted from 0; behind the last token it is the end of the chunk,
/// and a file that is none of the units has no places.
///
/// # Errors
/// For want of memory alone.
pub fn token_place(
    units: &Table<Unit>,
    file: &Name,
    chunk: u32,
    token: u32,
) -> Result<Option<Place>, NoMemory>
    requires { AreCut units.now }
    ensures { IfOk result (λ place. place ≡ token_place_in units.now file.now chunk token) }
{
    let Some(unit) = units.get(file) else {
        return Ok(None);
    };
    let tokens = chunk_tokens(unit.tokens.items(), unit.chunks.items(), chunk as usize);
    Ok(Some(place_at(tokens, token, &unit.end).copy()?))
}

/// The net type that is in force where the token of a number in a chunk of a file begins, both counted from 0 (IEEE 1800-2017,
/// 22.8); a wire where there is no such token. It takes no memory.
pub fn net_type_at(units: &Table<Unit>, file: &Name, chunk: u32, token: u32) -> NetType
    ensures { result ≡ net_type_in units.now file.now chunk token }
{
    let Some(unit) = units.get(file) else {
        return NetType::Wire;
    };
    let Some(part) = unit.chunks.items().get(chunk as usize) else {
        return NetType::Wire;
    };
    match unit.nets.items().get(part.from as usize + token as usize) {
        Some(net) => *net,
        None => NetType::Wire,
    }
}
