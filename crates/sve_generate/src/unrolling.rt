ghost use Rattle.std.specs.Prelude.{◌≡◌, [], ℤ, Bool, Option, Result, IfOk, OnOk};
ghost use Rattle.sve_fault.specs.declared.fault.Fault.{Fault as FaultOf};
ghost use Rattle.sve_fault.specs.Counts.{IsFuel};
ghost use Rattle.sve_plan.specs.Plan.{Counted};
ghost use Rattle.sve_plan.specs.Follows.{Meters};
ghost use Rattle.sve_generate.specs.Loops.{fresh, repeated, turn, turns, unrolled, with_value};

use indexmap::IndexSet;
use std::alloc::{AllocError, Global};
use sve_bytes::{List, NoMemory};
use sve_diag::Code;
use sve_fault::{Fault, Fuel, Halted};
use sve_plan::spend_many;

/// How many values of 32 bits there are.
const VALUES: u64 = 4_294_967_296;

/// The three expressions of a generate loop, as they are evaluated: each costs something, and has a fault or a value. A value is
/// that of the genvar, of type `integer`, where it has no x or z bits (27.4).
pub trait LoopExpressions {
    // What the first value costs and is.
    ghost starts: { Self → Counted (Result (Option ℤ) FaultOf) };

    // What the condition costs and is at a value of the genvar.
    ghost goes: { Self → ℤ → Counted (Result Bool FaultOf) };

    // What the next value costs and is behind a value of the genvar.
    ghost steps: { Self → ℤ → Counted (Result (Option ℤ) FaultOf) };

    /// The first value.
    ///
    /// # Errors
    /// `Over` where its cost passes the most that may be spent, or `NoMemory`.
    fn start(&self, fuel: &mut Fuel) -> Result<Result<Option<i32>, Fault>, Halted>
        requires { IsFuel fuel.old }
        ensures { Meters fuel.old fuel.new (starts self.now) result };

    /// Whether the loop goes on at this value. An unknown condition counts as false (own).
    ///
    /// # Errors
    /// As for the first value.
    fn condition(&self, value: i32, fuel: &mut Fuel) -> Result<Result<bool, Fault>, Halted>
        requires { IsFuel fuel.old }
        ensures { Meters fuel.old fuel.new (goes self.now value) result };

    /// The value behind this one.
    ///
    /// # Errors
    /// As for the first value.
    fn step(&self, value: i32, fuel: &mut Fuel) -> Result<Result<Option<i32>, Fault>, Halted>
        requires { IsFuel fuel.old }
        ensures { Meters fuel.old fuel.new (steps self.now value) result };
}

/// How a turn of a loop ends: with the values of all scopes or a fault, or with its value and the next one.
#[derive(Drop)]
enum Turn {
    Ends(Result<List<i32>, Fault>),
    Goes(i32, Option<i32>),
}

/// The values that have been there, in order.
fn values(alloc: Global, seen: &IndexSet<i32>) -> Result<List<i32>, NoMemory>
    ensures { IfOk result (λ values. values ≡ seen.now.keys) }
{
    let mut values = Vec::new(alloc);
    values.extend_from_slice(seen.as_slice())?;
    Ok(List::of(values))
}

/// The value, where it is known and has not been there.
fn fresh(seen: &IndexSet<i32>, value: Option<i32>) -> Option<i32>
    ensures { result ≡ fresh seen.now.keys value }
{
    match value {
        None => None,
        Some(value) => {
            if seen.contains(&value) {
                return None;
            }
            Some(value)
        }
    }
}

/// Puts a value behind those that have been there, where it has not.
fn put(seen: &mut IndexSet<i32>, value: i32) -> Result<(), NoMemory>
    ensures { OnOk result (seen.new.keys ≡ with_value seen.old.keys value) }
{
    match seen.insert(value) {
        Ok(_) => Ok(()),
        Err(_) => Err(AllocError),
    }
}

/// What is said of a loop whose genvar has a value with x or z bits, or one that comes again.
fn repeated(alloc: Global, token: u32, genvar: &[u8]) -> Result<Fault, NoMemory>
    ensures { IfOk result (λ fault. fault ≡ repeated token genvar.now) }
{
    Fault::about(alloc, token, Code::E14, genvar)
}

/// A turn of a loop.
fn take_turn<L: LoopExpressions>(
    alloc: Global,
    expressions: &L,
    token: u32,
    genvar: &[u8],
    seen: &IndexSet<i32>,
    value: Option<i32>,
    fuel: &mut Fuel,
) -> Result<Turn, Halted>
    requires { IsFuel fuel.old }
    ensures { Meters fuel.old fuel.new (turn (L.goes expressions.now) (L.steps expressions.now) (repeated token genvar.now) seen.now.keys value) result }
{
    let number = match fresh(seen, value) {
        Some(number) => number,
        None => return Ok(Turn::Ends(Err(repeated(alloc, token, genvar)?))),
    };
    match expressions.condition(number, fuel)? {
        Err(fault) => return Ok(Turn::Ends(Err(fault))),
        Ok(goes) => {
            if !goes {
                spend_many(fuel, seen.len() as u64)?;
                return Ok(Turn::Ends(Ok(values(alloc, seen)?)));
            }
        }
    }
    match expressions.step(number, fuel)? {
        Err(fault) => Ok(Turn::Ends(Err(fault))),
        Ok(next) => Ok(Turn::Goes(number, next)),
    }
}

/// The turns of a loop from its first value on.
fn turns<L: LoopExpressions>(
    alloc: Global,
    expressions: &L,
    token: u32,
    genvar: &[u8],
    start: Option<i32>,
    fuel: &mut Fuel,
) -> Result<Result<List<i32>, Fault>, Halted>
    requires { IsFuel fuel.old }
    ensures { Meters fuel.old fuel.new (turns 4294967296 (L.goes expressions.now) (L.steps expressions.now) (repeated token genvar.now) [] start) result }
{
    let mut seen: IndexSet<i32> = IndexSet::new(alloc);
    let mut value = start;
    'turns: for round in 0..VALUES {
        match take_turn(alloc, expressions, token, genvar, &seen, value, fuel)? {
            Turn::Ends(end) => return Ok(end),
            Turn::Goes(number, next) => {
                put(&mut seen, number)?;
                value = next;
            }
        }
    }
    Ok(Err(repeated(alloc, token, genvar)?))
}

/// The values for which a generate loop makes a scope each, in order (27.4). A value of the genvar that has x or z bits, or that
/// comes again, is a fault at the loop's first token that names the genvar (E14); the loop has none of its scopes where there is
/// a fault, and what was evaluated up to there counts. Else each scope counts one.
///
/// # Errors
/// `Over` exactly where the cost passes the most that may be spent, and `NoMemory`.
pub fn unroll<L: LoopExpressions>(
    alloc: Global,
    expressions: &L,
    token: u32,
    genvar: &[u8],
    fuel: &mut Fuel,
) -> Result<Result<List<i32>, Fault>, Halted>
    requires { IsFuel fuel.old }
    ensures { Meters fuel.old fuel.new (unrolled (L.starts expressions.now) (L.goes expressions.now) (L.steps expressions.now) (repeated token genvar.now)) result }
{
    match expressions.start(fuel)? {
        Err(fault) => Ok(Err(fault)),
        Ok(start) => turns(alloc, expressions, token, genvar, start, fuel),
    }
}
