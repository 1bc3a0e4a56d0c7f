ghost use Rattle.std.specs.Prelude.{◌≡◌, ◌<◌, ◌≤◌, ◌+◌, ◌^◌, ℕ, IfOk, OnOk, length, option_map, replicate, slice_get, slice_set};
ghost use Rattle.sve_package_order.specs.Search.{Fits, Solves, Tried};

use crate::progress::{Progress, advance, import_at};
use crate::waiters::Waiters;
use std::alloc::Global;
use sve_bytes::{List, NoMemory};

/// The search for the rounds of packages.
#[derive(Drop)]
struct Search {
    /// How far it is with each package.
    progress: Vec<Progress>,
    /// Which packages wait for which.
    waiters: Waiters,
    /// The packages that have a round of which those that wait for it have not been told.
    ready: Vec<usize>,
    /// How many packages have no round.
    left: usize,
}

/// A package has this round.
fn settle(search: &mut Search, place: usize, round: u32) -> Result<(), NoMemory>
    requires there { place < length search.old.progress.items }
    requires left { 0 < search.old.left }
    ensures progress { OnOk result (search.new.progress.items ≡ slice_set search.old.progress.items place (Progress.Settled round)) }
    ensures left { OnOk result (search.new.left + 1 ≡ search.old.left) }
    ensures ready { OnOk result (length search.new.ready.items ≡ length search.old.ready.items + 1) }
{
    search.ready.push(place)?;
    search.left -= 1;
    search.progress[place] = Progress::Settled(round);
    Ok(())
}

/// A package waits for another, at this place of its row.
fn wait(search: &mut Search, place: usize, at: usize, round: u32, import: usize)
    requires { place < length search.old.progress.items }
    ensures progress { search.new.progress.items ≡ slice_set search.old.progress.items place (Progress.Waits at round) }
    ensures left { search.new.left ≡ search.old.left }
    ensures ready { search.new.ready.items ≡ search.old.ready.items }
{
    search.waiters.add(import, place);
    search.progress[place] = Progress::Waits { at, round };
}

/// What the package at a place imports.
fn row_at(graph: &[List<usize>], place: usize) -> Option<&[usize]>
    ensures { option_map (λ row. row.now) result ≡ slice_get graph.now place }
{
    match graph.get(place) {
        Some(row) => Some(row.items()),
        None => None,
    }
}

/// How far the search is with the package at a place.
fn progress_at(progress: &[Progress], place: usize) -> Option<Progress>
    ensures { result ≡ slice_get progress.now place }
{
    match progress.get(place) {
        Some(progress) => Some(*progress),
        None => None,
    }
}

/// Tries whether a package can go on: it is settled, or waits for another.
fn try_again(graph: &[List<usize>], place: usize, search: &mut Search) -> Result<(), NoMemory>
    requires few { length graph.now < 2 ^ 32 }
    requires fits { Fits graph.now search.old.progress.items search.old.left }
    ensures fits { OnOk result (Fits graph.now search.new.progress.items search.new.left) }
    ensures falls { OnOk result (search.new.left ≤ search.old.left) }
    ensures paid { OnOk result (search.new.left + length search.new.ready.items ≡ search.old.left + length search.old.ready.items) }
    ensures tried { OnOk result (search.new.left ≡ search.old.left → Tried graph.now place search.old.progress.items search.new.progress.items) }
{
    let Some(imports) = row_at(graph, place) else {
        return Ok(());
    };
    let Some(progress) = progress_at(search.progress.as_slice(), place) else {
        return Ok(());
    };
    let Progress::Waits { at, round } = progress else {
        return Ok(());
    };
    match advance(imports, search.progress.as_slice(), at, round) {
        Progress::Settled(round) => settle(search, place, round),
        Progress::Waits { at, round } => {
            wait(search, place, at, round, import_at(imports, at));
            Ok(())
        }
    }
}

/// Tries each package once.
fn sweep(graph: &[List<usize>], search: &mut Search) -> Result<(), NoMemory>
    requires few { length graph.now < 2 ^ 32 }
    requires fits { Fits graph.now search.old.progress.items search.old.left }
    ensures fits { OnOk result (Fits graph.now search.new.progress.items search.new.left) }
    ensures falls { OnOk result (search.new.left ≤ search.old.left) }
    ensures solves { OnOk result (search.new.left ≡ search.old.left → Solves graph.now search.new.progress.items) }
{
    'packages: for place in 0..graph.len() {
        try_again(graph, place, search)?;
    }
    Ok(())
}

/// Tells those that wait for a package that it has a round.
fn tell(graph: &[List<usize>], package: usize, search: &mut Search) -> Result<(), NoMemory>
    requires few { length graph.now < 2 ^ 32 }
    requires fits { Fits graph.now search.old.progress.items search.old.left }
    ensures fits { OnOk result (Fits graph.now search.new.progress.items search.new.left) }
    ensures falls { OnOk result (search.new.left ≤ search.old.left) }
    ensures paid { OnOk result (search.new.left + length search.new.ready.items ≡ search.old.left + length search.old.ready.items) }
{
    'waiters: for _ in 0..graph.len() {
        let Some(place) = search.waiters.take(package) else {
            return Ok(());
        };
        try_again(graph, place, search)?;
    }
    Ok(())
}

/// Tells of all packages that have a round those that wait for them, and of those that are settled then in their turn.
fn drain(graph: &[List<usize>], search: &mut Search) -> Result<(), NoMemory>
    requires few { length graph.now < 2 ^ 32 }
    requires fits { Fits graph.now search.old.progress.items search.old.left }
    ensures fits { OnOk result (Fits graph.now search.new.progress.items search.new.left) }
    ensures falls { OnOk result (search.new.left ≤ search.old.left) }
{
    'ready: while let Some(package) = search.ready.pop() {
        tell(graph, package, search)?;
    }
    Ok(())
}

/// The search in which each of so many packages waits for its first import.
fn begun(alloc: Global, packages: usize) -> Result<Search, NoMemory>
    ensures { IfOk result (λ s. (s.progress.items ≡ replicate packages (Progress.Waits 0 0)) × (s.left ≡ packages)) }
{
    Ok(Search {
        progress: vec![in alloc; Progress::Waits { at: 0, round: 0 }; packages]?,
        waiters: Waiters::new(alloc, packages)?,
        ready: Vec::new(alloc),
        left: packages,
    })
}

/// How far the search comes with the packages of a graph, which has for each package the places of those that it imports: each
/// has the first round above those of its imports, and none where one of them has none. A sweep over all packages finds those that
/// import nothing, then each package is told as soon as the one for which it waits is settled, and a second sweep finds that none
/// can go on. So each import is passed once, and each package is tried twice and once for each of its imports at most.
pub(crate) fn solved(alloc: Global, graph: &[List<usize>]) -> Result<Vec<Progress>, NoMemory>
    requires { length graph.now < 2 ^ 32 }
    ensures fits { IfOk result (λ progress. (left : ℕ) × Fits graph.now progress.items left) }
    ensures solves { IfOk result (λ progress. Solves graph.now progress.items) }
{
    let mut search = begun(alloc, graph.len())?;
    'sweeps: loop {
        let before = search.left;
        sweep(graph, &mut search)?;
        if search.left == before {
            return Ok(search.progress);
        }
        drain(graph, &mut search)?;
    }
}
