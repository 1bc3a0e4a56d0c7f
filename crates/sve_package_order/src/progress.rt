ghost use Rattle.std.specs.Prelude.{◌≡◌, ◌<◌, ◌≤◌, ◌+◌, ℕ, Some, IfSome, length, max, slice_index, take};
ghost use Rattle.sve_package_order.specs.Search.{Leads, found, next_round, settled};

/// How far the search is with a package.
#[derive(Clone, Copy, PartialEq, Eq)]
pub(crate) enum Progress {
    /// Its imports in front of this place have rounds, and the one there has none yet.
    Waits {
        /// The place in the row of its imports.
        at: usize,
        /// The first round above those of the imports in front of it.
        round: u32,
    },
    /// It has this round.
    Settled(u32),
}

/// The round that is found.
pub(crate) fn found(progress: Progress) -> Option<u32>
    ensures { result ≡ found progress }
{
    match progress {
        Progress::Waits { .. } => None,
        Progress::Settled(round) => Some(round),
    }
}

/// The round of the package at a place, where it is found.
fn settled(progress: &[Progress], place: usize) -> Option<u32>
    ensures { result ≡ settled progress.now place }
{
    match progress.get(place) {
        Some(progress) => found(*progress),
        None => None,
    }
}

/// The import at a place of a row.
pub(crate) fn import_at(imports: &[usize], place: usize) -> usize
    requires { place < length imports.now }
    ensures { result ≡ slice_index imports.now place }
{
    imports[place]
}

/// The first round that is above one and not below the other.
fn above(next: u32, earlier: u32) -> u32
    requires { earlier < 4294967295 }
    ensures { result ≡ max next (earlier + 1) }
{
    next.max(earlier + 1)
}

/// How far a package is whose imports in front of a place have rounds, where this is the first above theirs. It goes on from
/// there, so that in all calls together each import is passed once.
pub(crate) fn advance(imports: &[usize], progress: &[Progress], at: usize, round: u32) -> Progress
    requires within { at ≤ length imports.now }
    requires so_far { next_round (settled progress.now) (take at imports.now) ≡ Some round }
    requires low { (q : ℕ) → IfSome (settled progress.now q) (λ n. n < 4294967295) }
    ensures { Leads progress.now imports.now result }
{
    let mut next = round;
    'imports: for place in at..imports.len() {
        match settled(progress, import_at(imports, place)) {
            Some(earlier) => next = above(next, earlier),
            None => {
                return Progress::Waits {
                    at: place,
                    round: next,
                };
            }
        }
    }
    Progress::Settled(next)
}
