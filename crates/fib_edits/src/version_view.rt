//! The rows of a version by their indexes.
ghost use Rattle.std.specs.Prelude.{◌≡◌, IfOk, OnOk};
ghost use Rattle.fib_edits.specs.Edits.{done_all};
ghost use Rattle.fib_edits.specs.Named.{number_in, indexed, index_at};

use crate::OutOfMemory;
use module_trait::{Edit, RouteView};
use nhop_index::Indexes;
use prefix_width::Prefix;
use rib_store::Rib;
use std::alloc::Global;

/// The rows of a table, each with the index of what its route leads to, made anew. The index is 0
/// where what the route leads to has none.
pub fn view_of<const W: u32, const K: u64, const LIVE: u32>(
    alloc: Global,
    rib: &Rib<W, LIVE>,
    indexes: &Indexes<W, K, LIVE>,
) -> Result<RouteView<W>, OutOfMemory>
    ensures { IfOk result (λ view. view ≡ indexed (number_in indexes.now.names) rib.now.rows) }
{
    // What every table knows of its rows.
    let _ascending = rib.len();
    let mut view = RouteView::new(alloc);
    for (prefix, _paths) in rib.iter() {
        view.set(*prefix, index_at(rib, indexes, prefix))?;
    }
    // What every view knows of its rows.
    let _ascending = view.len();
    Ok(view)
}

/// Does all the edits in a view. After an error some of them may be done.
pub fn follow<const W: u32>(view: &mut RouteView<W>, edits: &[Edit<W>]) -> Result<(), OutOfMemory>
    ensures { OnOk result (view.new ≡ done_all edits.now view.old) }
{
    for edit in edits {
        view.set(edit.prefix(), edit.after())?;
    }
    Ok(())
}

/// The index of a prefix in a table: of what its route leads to, 0 where that has none. None where
/// the prefix has no route.
pub(crate) fn index_at<const W: u32, const K: u64, const LIVE: u32>(
    rib: &Rib<W, LIVE>,
    indexes: &Indexes<W, K, LIVE>,
    prefix: &Prefix<W>,
) -> Option<u16>
    ensures { result ≡ index_at (number_in indexes.now.names) rib.now.rows prefix.now }
{
    match rib.get(prefix) {
        None => None,
        Some(paths) => Some(indexes.index_of_paths(paths).unwrap_or(0)),
    }
}
