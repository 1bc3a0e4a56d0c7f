ghost use Rattle.std.specs.Prelude.{◌≡◌, ◌+◌, ◌<◌, ◌≤◌, ◌^◌, false, unsigned_abs, pos, neg_ℤ, ◌+ℤ◌, ◌-ℤ◌, ◌*ℤ◌, ◌≤ℤ◌, length, IfOk};
ghost use Rattle.std.specs.Option.{option_map};
ghost use Rattle.sve_value.specs.Vector.{IsWidth};
ghost use Rattle.sve_value.specs.Moves.{filled_of, outside_bit};
ghost use Rattle.sve_rule.specs.Rules.{count_of};
ghost use Rattle.sve_select.specs.Pieces.{selectable_of, piece_of, pieced, places_of, seen_places};
ghost use Rattle.sve_select.specs.Selects.{place_at, above, rightmost, is_rising, is_reversed, cut, several, from_to, between, upward, downward, chosen, chosen_of, chosen_in, no_places, selected_judged};

use crate::choice::Choice;
use crate::part::{Part, Rest, Selected};
use crate::places::{Places, has_two_states, place_count, places_of};
use std::alloc::Global;
use sve_bytes::NoMemory;
use sve_diag::Code;
use sve_fault::Fault;
use sve_types::Range;
use sve_value::{Bit, Bits, select};

/// The most bits that a constant has.
const MAX_BITS: u128 = 128;

/// A place outside of 64 signed bits is none, as one with x or z is.
fn place_at(value: Bits) -> Option<i64>
    ensures { result ≡ place_at value }
{
    value.integer()
}

/// How many a value says: none where a bit is unknown or the value is below zero.
fn count_of(value: Bits) -> Option<u128>
    ensures { result ≡ count_of value }
{
    if value.is_negative() {
        return None;
    }
    value.natural()
}

/// Whether the places rise to the right.
fn is_rising(range: Range) -> bool
    ensures { result ≡ is_rising range }
{
    range.left < range.right
}

/// Bits that all are outside.
fn outside(width: u32, two_states: bool) -> Bits
    requires { IsWidth width }
    ensures { result ≡ filled_of width false (outside_bit two_states) }
{
    let bit = if two_states { Bit::Zero } else { Bit::X };
    Bits::filled(width, false, bit)
}

/// The lowest bit of a place that is so far above the rightmost one, and not far outside.
fn lowest(place: i64, each: u32) -> i64
    requires each { IsWidth each }
    requires low { neg_ℤ (pos 128) ≤ℤ place }
    requires high { place ≤ℤ pos 128 }
    ensures { result ≡ place *ℤ pos each }
{
    place * i64::from(each)
}

/// So many bits, from a place on that is so far above the rightmost one.
#[tactic(auto, using(crate::proofs::Windows::far_above, crate::proofs::Windows::far_below))]
fn cut(part: &Part, each: u32, width: u32, low: Option<i128>) -> Bits
    requires each { IsWidth each }
    requires width { IsWidth width }
    ensures { result ≡ cut (piece_of part.now) each width low }
{
    let two_states = has_two_states(part.rest);
    match low {
        None => outside(width, two_states),
        Some(low) => {
            if low >= i128::from(part.value.width()) {
                return outside(width, two_states);
            }
            if low <= -128 {
                return outside(width, two_states);
            }
            select(part.value, lowest(low as i64, each), width, two_states)
        }
    }
}

/// How far a place is above the rightmost one.
fn above(range: Range, place: i128) -> i128
    requires low { neg_ℤ (pos (2 ^ 66)) ≤ℤ place }
    requires high { place ≤ℤ pos (2 ^ 66) }
    ensures { result ≡ above range place }
{
    if is_rising(range) {
        i128::from(range.right) - place
    } else {
        place - i128::from(range.right)
    }
}

/// So many places of so many bits each, which are 128 bits at the most.
#[tactic(auto, using(crate::proofs::Windows::too_wide, crate::proofs::Windows::not_empty))]
fn several<'t>(
    first: u32,
    part: &Part,
    each: u32,
    count: u128,
    low: Option<i128>,
    rest: Rest<'t>,
) -> Selected<'t>
    requires each { IsWidth each }
    requires count { 1 ≤ count }
    ensures { pieced result ≡ several first (piece_of part.now) each count low (selectable_of rest.entry) }
{
    if count > MAX_BITS {
        return Err(Fault::at(first, Code::C03));
    }
    let width = u64::from(count as u32) * u64::from(each);
    if width > 128 {
        return Err(Fault::at(first, Code::C03));
    }
    Ok(Part {
        value: cut(part, each, width as u32, low),
        rest,
    })
}

/// Whether bounds are against the order of a dimension.
fn is_reversed(range: Range, left: i64, right: i64) -> bool
    ensures { result ≡ is_reversed range left right }
{
    if is_rising(range) {
        right < left
    } else {
        left < right
    }
}

/// How many places there are from one to another.
fn place_number(left: i64, right: i64) -> u128
    ensures { result ≡ unsigned_abs (left -ℤ right) + 1 }
{
    (i128::from(left) - i128::from(right)).unsigned_abs() + 1
}

/// How far a place is above the rightmost one, where it is known.
fn place_low(range: Range, place: Option<i64>) -> Option<i128>
    ensures { result ≡ option_map (λ z. above range z) place }
{
    match place {
        None => None,
        Some(place) => Some(above(range, i128::from(place))),
    }
}

/// The places from one to another, at the first token of the left bound.
fn from_to<'t>(
    first: u32,
    part: &Part,
    range: Range,
    each: u32,
    token: u32,
    left: i64,
    right: i64,
) -> Selected<'t>
    requires { IsWidth each }
    ensures { pieced result ≡ from_to first (piece_of part.now) range each token left right }
{
    if is_reversed(range, left, right) {
        return Err(Fault::at(token, Code::C01));
    }
    let low = place_low(range, Some(right));
    several(first, part, each, place_number(left, right), low, Rest::Run)
}

/// `[l:r]`, each bound with its first token.
fn between<'t>(
    first: u32,
    part: &Part,
    range: Range,
    each: u32,
    left_token: u32,
    left: Option<i64>,
    right_token: u32,
    right: Option<i64>,
) -> Selected<'t>
    requires { IsWidth each }
    ensures { pieced result ≡ between first (piece_of part.now) range each left_token left right_token right }
{
    match left {
        None => Err(Fault::at(left_token, Code::C01)),
        Some(left) => match right {
            None => Err(Fault::at(right_token, Code::C01)),
            Some(right) => from_to(first, part, range, each, left_token, left, right),
        },
    }
}

/// How far the rightmost of some places is above that of the range: `more` places beside the lowest one.
fn upward_low(range: Range, base: Option<i64>, more: u32) -> Option<i128>
    requires { more < 128 }
    ensures { result ≡ option_map (λ b. above range (rightmost range b (b +ℤ pos more))) base }
{
    match base {
        None => None,
        Some(base) => {
            let base = i128::from(base);
            let place = if is_rising(range) {
                base + i128::from(more)
            } else {
                base
            };
            Some(above(range, place))
        }
    }
}

/// `[b+:w]`, with the first token of the width.
#[tactic(auto, using(crate::proofs::Windows::too_wide))]
fn upward<'t>(
    first: u32,
    part: &Part,
    range: Range,
    each: u32,
    base: Option<i64>,
    token: u32,
    width: Option<u128>,
) -> Selected<'t>
    requires { IsWidth each }
    ensures { pieced result ≡ upward first (piece_of part.now) range each base token width }
{
    match width {
        None => Err(Fault::at(token, Code::C01)),
        Some(width) => {
            if width == 0 {
                return Err(Fault::at(token, Code::C01));
            }
            if width > MAX_BITS {
                return Err(Fault::at(first, Code::C03));
            }
            let low = upward_low(range, base, width as u32 - 1);
            several(first, part, each, width, low, Rest::Run)
        }
    }
}

/// How far the rightmost of some places is above that of the range: `more` places beside the highest one.
fn downward_low(range: Range, base: Option<i64>, more: u32) -> Option<i128>
    requires { more < 128 }
    ensures { result ≡ option_map (λ b. above range (rightmost range (b -ℤ pos more) b)) base }
{
    match base {
        None => None,
        Some(base) => {
            let base = i128::from(base);
            let place = if is_rising(range) {
                base
            } else {
                base - i128::from(more)
            };
            Some(above(range, place))
        }
    }
}

/// `[b-:w]`, with the first token of the width.
#[tactic(auto, using(crate::proofs::Windows::too_wide))]
fn downward<'t>(
    first: u32,
    part: &Part,
    range: Range,
    each: u32,
    base: Option<i64>,
    token: u32,
    width: Option<u128>,
) -> Selected<'t>
    requires { IsWidth each }
    ensures { pieced result ≡ downward first (piece_of part.now) range each base token width }
{
    match width {
        None => Err(Fault::at(token, Code::C01)),
        Some(width) => {
            if width == 0 {
                return Err(Fault::at(token, Code::C01));
            }
            if width > MAX_BITS {
                return Err(Fault::at(first, Code::C03));
            }
            let low = downward_low(range, base, width as u32 - 1);
            several(first, part, each, width, low, Rest::Run)
        }
    }
}

/// A select of places of so many bits each.
fn chosen<'t>(
    first: u32,
    part: &Part,
    places: Places<'t>,
    each: u32,
    choice: Choice,
) -> Selected<'t>
    requires { IsWidth each }
    ensures { pieced result ≡ chosen first (piece_of part.now) (seen_places places.entry) each choice }
{
    let range = places.range;
    match choice {
        Choice::Place(place) => several(
            first,
            part,
            each,
            1,
            place_low(range, place_at(place)),
            places.each,
        ),
        Choice::Between(left_token, left, right_token, right) => between(
            first,
            part,
            range,
            each,
            left_token,
            place_at(left),
            right_token,
            place_at(right),
        ),
        Choice::Upward(base, token, width) => upward(
            first,
            part,
            range,
            each,
            place_at(base),
            token,
            count_of(width),
        ),
        Choice::Downward(base, token, width) => downward(
            first,
            part,
            range,
            each,
            place_at(base),
            token,
            count_of(width),
        ),
    }
}

/// A select of places, each of which has as many bits as any other.
#[tactic(auto, using(crate::proofs::Windows::quotient_below))]
fn chosen_of<'t>(first: u32, part: &Part, places: Places<'t>, choice: Choice) -> Selected<'t>
    ensures { pieced result ≡ chosen_of first (piece_of part.now) (seen_places places.entry) choice }
{
    let each = u64::from(part.value.width()) / place_count(places.range);
    if each == 0 {
        return Err(Fault::at(first, Code::C01));
    }
    chosen(first, part, places, each as u32, choice)
}

/// What has no places.
fn no_places(
    alloc: Global,
    first: u32,
    token: u32,
    name: &[u8],
    rest: Rest,
) -> Result<Fault, NoMemory>
    ensures { IfOk result (λ f. f ≡ no_places first token name.now (selectable_of rest.entry)) }
{
    match rest {
        Rest::Typed(..) => Fault::about(alloc, token, Code::N11, name),
        Rest::Bit => Fault::about(alloc, token, Code::N11, name),
        Rest::Row => Ok(Fault::at(first, Code::C01)),
        Rest::Run => Ok(Fault::at(first, Code::C01)),
    }
}

/// A select of a part, by its places.
fn chosen_in<'t>(
    alloc: Global,
    first: u32,
    token: u32,
    name: &[u8],
    part: &Part<'t>,
    choice: Choice,
) -> Result<Selected<'t>, NoMemory>
    ensures { IfOk result (λ r. pieced r ≡ chosen_in first token name.now (piece_of part.now) choice (places_of (length part.now.value.bits) (selectable_of part.now.rest))) }
{
    match places_of(part.rest, part.value.width()) {
        None => Ok(Err(no_places(alloc, first, token, name, part.rest)?)),
        Some(places) => Ok(chosen_of(first, part, places, choice)),
    }
}

/// A select of places of what earlier selects have led to. The tokens are the first one of the whole, and that of the name. What has
/// no places is the wrong thing for a select (N11), some bits of more are no constant (C01); a bound that is unknown, bounds against
/// the order of the dimension, and a width below 1 are none either (C01). Places outside are x, and 0 in what has two states. It fails
/// for want of memory alone.
#[tactic(auto, unfolding(crate::specs::Selects::selected_judged))]
pub fn selected<'t>(
    alloc: Global,
    first: u32,
    token: u32,
    name: &[u8],
    before: Selected<'t>,
    choice: Result<Choice, Fault>,
) -> Result<Selected<'t>, NoMemory>
    ensures { IfOk result (λ r. pieced r ≡ selected_judged first token name.now (pieced before.entry) choice) }
{
    match before {
        Ok(part) => match choice {
            Ok(choice) => chosen_in(alloc, first, token, name, &part, choice),
            Err(b) => Ok(Err(b)),
        },
        Err(a) => match choice {
            Err(b) => Ok(Err(a.first(b))),
            Ok(_) => Ok(Err(a)),
        },
    }
}
