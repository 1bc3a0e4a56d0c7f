ghost use Rattle.std.specs.Prelude.{◌≡◌, IfOk, option_map};
ghost use Rattle.sve_fault.specs.Counts.{Counts, IsFuel};
ghost use Rattle.sve_resolve.specs.Values.{given_or_default};
ghost use Rattle.sve_resolve.specs.Resolving.{called, given_for, next_place, no_parameters, parameter_nodes, parameters_in, resolved, resolved_nodes, with_parameter, with_parameters, nodes_of_parameters};

use crate::found::{Found, joined, parameter_found};
use crate::known::{Known, Resolved, with_resolved};
use crate::within::Within;
use std::alloc::Global;
use sve_assigned::Form;
use sve_bytes::{List, NoMemory};
use sve_diag::Note;
use sve_env::Env;
use sve_fault::{Fuel, Halted, argument};
use sve_formal::{is_local_keyword, keyword_after};
use sve_scope::SharedType;
use sve_spec::Given;
use sve_table::Table;
use sve_tree::{Header, ParameterKeyword, ParameterPort, ParameterPorts};
use sve_types::Value;

/// The parameters of a header, and what there is to say of them.
#[derive(Drop)]
pub struct Params {
    /// The parameters, in the order of the text.
    pub parameters: List<Resolved>,
    /// What there is to say, in the order of the text.
    pub notes: List<Note>,
}

/// The parameters so far, and what the last of them hands on.
#[derive(Drop)]
pub(crate) struct Resolving {
    /// The keyword in force.
    pub(crate) keyword: ParameterKeyword,
    /// How many of them can be overridden.
    pub(crate) place: usize,
    pub(crate) form: Form,
    pub(crate) is_array: bool,
    pub(crate) known: Known,
    pub(crate) notes: List<Note>,
}

/// No parameter so far.
fn no_parameters(alloc: Global) -> Resolving
    ensures { result ≡ no_parameters }
{
    Resolving {
        keyword: ParameterKeyword::Parameter,
        place: 0,
        form: Form::Free,
        is_array: false,
        known: Known {
            names: Table::new(alloc),
            parameters: List::of(Vec::new(alloc)),
        },
        notes: List::of(Vec::new(alloc)),
    }
}

/// What the parameter at a place among those that can be overridden is given, where it is given anything; a local one is not.
fn given_for(given: &[Given], is_local: bool, place: usize) -> Option<&Given>
    ensures { given_or_default (option_map (λ g. g.now) result) ≡ given_for given.now is_local place }
{
    if is_local { None } else { given.get(place) }
}

/// How many can be overridden behind one more.
fn next_place(is_local: bool, place: usize) -> usize
    ensures { result ≡ next_place is_local place }
{
    if is_local {
        place
    } else {
        place.saturating_add(1)
    }
}

/// A parameter more at this token, where it has a name.
fn called<E: Env>(
    alloc: Global,
    env: &E,
    known: Known,
    token: u32,
    is_local: bool,
    ty: Option<SharedType>,
    value: Option<Value>,
) -> Result<Known, NoMemory>
    ensures { IfOk result (λ k. k ≡ called (E.told env.now) known token is_local ty value) }
{
    match argument(alloc, env.text(token))? {
        None => Ok(known),
        Some(name) => with_resolved(
            known,
            Resolved {
                name,
                token,
                is_local,
                ty,
                value,
            },
        ),
    }
}

/// A parameter more.
fn with_parameter<E: Env>(
    alloc: Global,
    given: &[Given],
    resolving: Resolving,
    port: &ParameterPort,
    env: &E,
    fuel: &mut Fuel,
) -> Result<Resolving, Halted>
    requires { IsFuel fuel.old }
    ensures meaning { IfOk result (λ r. r ≡ with_parameter (E.told env.now) given.now resolving port.now) }
    ensures count { Counts result fuel.old fuel.new (parameter_nodes (E.told env.now) given.now resolving port.now) }
{
    let Resolving {
        keyword,
        place,
        form,
        is_array,
        known,
        notes,
    } = resolving;
    let keyword = keyword_after(keyword, port.keyword);
    let is_local = is_local_keyword(keyword);
    let given = given_for(given, is_local, place);
    let within = Within {
        alloc,
        env,
        known: &known,
    };
    let Found {
        form,
        is_array,
        ty,
        value,
        notes: said,
    } = parameter_found(alloc, form, is_array, given, port, &within, fuel)?;
    Ok(Resolving {
        keyword,
        place: next_place(is_local, place),
        form,
        is_array,
        known: called(alloc, env, known, port.name(), is_local, ty, value)?,
        notes: joined(notes, said)?,
    })
}

/// Parameters, one after another.
#[tactic(auto, using(crate::proofs::Rows::parameter_taken, crate::proofs::Rows::parameters_taken, crate::proofs::Rows::parameter_counted, crate::proofs::Rows::parameters_counted))]
fn with_parameters<E: Env>(
    alloc: Global,
    given: &[Given],
    resolving: Resolving,
    ports: &[ParameterPort],
    env: &E,
    fuel: &mut Fuel,
) -> Result<Resolving, Halted>
    requires { IsFuel fuel.old }
    ensures meaning { IfOk result (λ r. r ≡ with_parameters (E.told env.now) given.now resolving ports.now) }
    ensures count { Counts result fuel.old fuel.new (nodes_of_parameters (E.told env.now) given.now resolving ports.now) }
{
    let mut resolving = resolving;
    'ports: for port in ports {
        resolving = with_parameter(alloc, given, resolving, port, env, fuel)?;
    }
    Ok(resolving)
}

/// The parameters that are written in a header.
fn parameters_in(parameters: &Option<ParameterPorts>) -> &[ParameterPort]
    ensures { result.now ≡ parameters_in parameters.now }
{
    match parameters {
        Some(list) => list.parameters.as_slice(),
        None => &[],
    }
}

/// The final types and values of the parameters of a header, where those that can be overridden are given these in their order (IEEE
/// 1800-2017, 6.20 and 23.10), and what there is to say of them. Each sees what is known around the header and the parameters before
/// it. One without keyword and type repeats the type of the one before, which is not evaluated again. An override is converted to the
/// type; a default is evaluated only where nothing overrides it. A parameter that is given something bad, or of whose value something
/// is said, has no value; one with unpacked dimensions has none either, and is said at its name (E06). Where fewer are given, the others have their defaults.
/// The nodes that are evaluated are counted; it is Over exactly where they pass the most.
pub fn resolve<E: Env>(
    alloc: Global,
    header: &Header,
    given: &[Given],
    env: &E,
    fuel: &mut Fuel,
) -> Result<Params, Halted>
    requires { IsFuel fuel.old }
    ensures meaning { IfOk result (λ p. p ≡ resolved (E.told env.now) given.now header.now) }
    ensures count { Counts result fuel.old fuel.new (resolved_nodes (E.told env.now) given.now header.now) }
{
    let ports = parameters_in(&header.parameters);
    let Resolving {
        keyword: _,
        place: _,
        form: _,
        is_array: _,
        known,
        notes,
    } = with_parameters(alloc, given, no_parameters(alloc), ports, env, fuel)?;
    let Known {
        names: _,
        parameters,
    } = known;
    Ok(Params { parameters, notes })
}
