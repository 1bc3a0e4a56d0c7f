//! Arguments, one after another.
ghost use Rattle.std.specs.Prelude.{◌≡◌, IfOk, option_map};
ghost use Rattle.sve_connect.specs.Links.{by_name, by_order, expression_linked, free_port, left_out, means_of, name_linked, named, ordered, place_of, refused, starred, taken, with_argument};

use crate::Around;
use crate::fitting::{is_interface, misfit};
use crate::linked::{
    Link, Linking, Star, counted, in_form, is_free, linked, noted, with_form, with_nets, with_star,
};
use crate::ports::PortName;
use sve_bytes::{Name, NoMemory};
use sve_diag::Code;
use sve_facts::Port;
use sve_form::token_of;
use sve_table::Table;
use sve_tree::{Arg, Expr};

/// What is connected: an expression, a name that is the port's own at this token, or nothing.
#[derive(Clone, Copy)]
pub(crate) enum Means<'a> {
    Expression(&'a Expr),
    OwnName(u32),
    Nothing,
}

/// An interface port is connected to an expression, which must stand for its interface (E10); in another expression names may declare
/// nets.
fn expression_linked<A: Around>(
    around: &A,
    linking: Linking,
    port: &Port,
    at: usize,
    place: usize,
    expr: &Expr,
) -> Result<Linking, NoMemory>
    ensures { IfOk result (λ l. l ≡ expression_linked (A.seen around.now) linking port.now at place expr.now) }
{
    match &port.face {
        None => with_nets(around, linked(linking, at, Link::To(place)), expr),
        Some(face) => {
            if is_interface(&face.interface, around.interface(expr)) {
                Ok(linked(linking, at, Link::To(place)))
            } else {
                let arg = Some(port.name.copy()?);
                let linking = linked(linking, at, Link::Wrong);
                noted(around, linking, token_of(expr), Code::E10, arg)
            }
        }
    }
}

/// A port is connected to what its name stands for around the instance, which must fit (E09, E10).
fn name_linked<A: Around>(
    around: &A,
    linking: Linking,
    port: &Port,
    at: usize,
    place: usize,
    token: u32,
) -> Result<Linking, NoMemory>
    ensures { IfOk result (λ l. l ≡ name_linked (A.seen around.now) linking port.now at place token) }
{
    match misfit(port, around.thing(&port.name)) {
        None => Ok(linked(linking, at, Link::To(place))),
        Some(code) => {
            let arg = Some(port.name.copy()?);
            noted(around, linked(linking, at, Link::Wrong), token, code, arg)
        }
    }
}

/// A port is connected to this.
fn taken<A: Around>(
    around: &A,
    linking: Linking,
    port: &Port,
    at: usize,
    place: usize,
    means: Means<'_>,
) -> Result<Linking, NoMemory>
    ensures { IfOk result (λ l. l ≡ taken (A.seen around.now) linking port.now at place (means_of means.entry)) }
{
    match means {
        Means::Expression(expr) => expression_linked(around, linking, port, at, place, expr),
        Means::OwnName(token) => name_linked(around, linking, port, at, place, token),
        Means::Nothing => Ok(linked(linking, at, Link::Nothing)),
    }
}

/// What an argument that connects no port leaves: in its expression names may declare nets.
fn left_out<A: Around>(around: &A, linking: Linking, means: Means<'_>) -> Result<Linking, NoMemory>
    ensures { IfOk result (λ l. l ≡ left_out (A.seen around.now) linking (means_of means.entry)) }
{
    match means {
        Means::Expression(expr) => with_nets(around, linking, expr),
        Means::OwnName(_) => Ok(linking),
        Means::Nothing => Ok(linking),
    }
}

/// An argument that is refused is said, and connects nothing.
fn refused<A: Around>(
    around: &A,
    linking: Linking,
    token: u32,
    code: Code,
    arg: Option<&Name>,
    means: Means<'_>,
) -> Result<Linking, NoMemory>
    ensures { IfOk result (λ l. l ≡ refused (A.seen around.now) linking token code (option_map (λ n. n.now) arg.entry) (means_of means.entry)) }
{
    let arg = match arg {
        Some(name) => Some(name.copy()?),
        None => None,
    };
    let linking = noted(around, linking, token, code, arg)?;
    left_out(around, linking, means)
}

/// The place of the port of a name.
fn place_of(names: &Table<PortName>, name: Option<&Name>) -> Option<usize>
    ensures { result ≡ place_of names.now (option_map (λ n. n.now) name.entry) }
{
    match names.get(name?) {
        Some(port) => Some(port.place),
        None => None,
    }
}

/// The port at a place, where no argument connects it so far.
fn free_port<'a>(ports: &'a [Port], linking: &Linking, place: Option<usize>) -> Option<&'a Port>
    ensures { option_map (λ p. p.now) result ≡ free_port ports.now linking.now place }
{
    let place = place?;
    if is_free(linking.links.items(), place) {
        ports.get(place)
    } else {
        None
    }
}

/// An argument by the name of a port, at this token: the port must be there, and not be named before (E07).
fn by_name<A: Around>(
    around: &A,
    ports: &[Port],
    names: &Table<PortName>,
    linking: Linking,
    name: u32,
    place: usize,
    means: Means<'_>,
) -> Result<Linking, NoMemory>
    ensures { IfOk result (λ l. l ≡ by_name (A.seen around.now) ports.now names.now linking name place (means_of means.entry)) }
{
    let called = around.name(name);
    let at = place_of(names, called);
    match free_port(ports, &linking, at) {
        Some(port) => taken(around, linking, port, at.unwrap_or(0), place, means),
        None => refused(around, linking, name, Code::E07, called, means),
    }
}

/// An argument by name, or one that is said and connects nothing, since the first is by order (E08).
fn named<A: Around>(
    around: &A,
    ports: &[Port],
    names: &Table<PortName>,
    linking: Linking,
    name: u32,
    place: usize,
    means: Means<'_>,
) -> Result<Linking, NoMemory>
    ensures { IfOk result (λ l. l ≡ named (A.seen around.now) ports.now names.now linking name place (means_of means.entry)) }
{
    if in_form(linking.form, false) {
        let linking = with_form(linking, false);
        by_name(around, ports, names, linking, name, place, means)
    } else {
        refused(around, linking, name, Code::E08, None, means)
    }
}

/// An argument in the place of a port, or the first in excess, which is said (E08).
fn by_order<A: Around>(
    around: &A,
    ports: &[Port],
    linking: Linking,
    token: u32,
    place: usize,
    means: Means<'_>,
) -> Result<Linking, NoMemory>
    ensures { IfOk result (λ l. l ≡ by_order (A.seen around.now) ports.now linking token place (means_of means.entry)) }
{
    let at = linking.next;
    let linking = counted(linking);
    match ports.get(at) {
        Some(port) => taken(around, linking, port, at, place, means),
        None => {
            if at == ports.len() {
                refused(around, linking, token, Code::E08, None, means)
            } else {
                left_out(around, linking, means)
            }
        }
    }
}

/// An argument by order, or one that is said and connects nothing, since the first is by name (E08).
fn ordered<A: Around>(
    around: &A,
    ports: &[Port],
    linking: Linking,
    token: u32,
    place: usize,
    means: Means<'_>,
) -> Result<Linking, NoMemory>
    ensures { IfOk result (λ l. l ≡ ordered (A.seen around.now) ports.now linking token place (means_of means.entry)) }
{
    if in_form(linking.form, true) {
        by_order(around, ports, with_form(linking, true), token, place, means)
    } else {
        refused(around, linking, token, Code::E08, None, means)
    }
}

/// An argument `.*`: a second one, or one where the first argument is by order, is said (E08).
fn starred<A: Around>(around: &A, linking: Linking, star: Star) -> Result<Linking, NoMemory>
    ensures { IfOk result (λ l. l ≡ starred (A.seen around.now) linking star) }
{
    if in_form(linking.form, false) && linking.star.is_none() {
        Ok(with_star(with_form(linking, false), star))
    } else {
        noted(around, linking, star.token, Code::E08, None)
    }
}

/// An argument more, with the token behind it.
#[tactic(auto, unfolding(crate::specs::Links::with_argument))]
pub(crate) fn with_argument<A: Around>(
    around: &A,
    ports: &[Port],
    names: &Table<PortName>,
    linking: Linking,
    place: usize,
    behind: u32,
    argument: &Arg,
) -> Result<Linking, NoMemory>
    ensures { IfOk result (λ l. l ≡ with_argument (A.seen around.now) ports.now names.now linking place behind argument.now) }
{
    match argument {
        Arg::Wildcard { token } => starred(
            around,
            linking,
            Star {
                token: *token,
                place,
            },
        ),
        Arg::Implicit { name, .. } => {
            let means = Means::OwnName(*name);
            named(around, ports, names, linking, *name, place, means)
        }
        Arg::Unconnected { name, .. } => {
            let means = Means::Nothing;
            named(around, ports, names, linking, *name, place, means)
        }
        Arg::Named { name, value, .. } => {
            let means = Means::Expression(value);
            named(around, ports, names, linking, *name, place, means)
        }
        Arg::Ordered { value } => {
            let token = token_of(value);
            ordered(
                around,
                ports,
                linking,
                token,
                place,
                Means::Expression(value),
            )
        }
        Arg::Empty => ordered(around, ports, linking, behind, place, Means::Nothing),
    }
}
