//! The trees of the units of a project.
ghost use Rattle.std.specs.Prelude.{◌≡◌, option_map};
ghost use Rattle.std.specs.Arc.{arc_value};
ghost use Rattle.sve_project.specs.Projects.{tree_at, tree_of_chunk};

use std::sync::Arc;
use sve_bytes::Name;
use sve_front::Unit;
use sve_table::Table;
use sve_tree::Element;

/// The tree of a chunk, where there is such a chunk and it has one.
fn tree_of_chunk(trees: &[Option<Arc<Element>>], chunk: u32) -> Option<&Arc<Element>>
    ensures { option_map (λ tree. arc_value tree.now) result ≡ tree_of_chunk trees.now chunk }
{
    match trees.get(chunk as usize) {
        Some(Some(tree)) => Some(tree),
        Some(None) => None,
        None => None,
    }
}

/// The tree of a chunk of a file.
pub(crate) fn tree_at<'a>(
    units: &'a Table<Unit>,
    file: &Name,
    chunk: u32,
) -> Option<&'a Arc<Element>>
    ensures { option_map (λ tree. arc_value tree.now) result ≡ tree_at units.now file.now chunk }
{
    match units.get(file) {
        Some(unit) => tree_of_chunk(unit.trees.items(), chunk),
        None => None,
    }
}
