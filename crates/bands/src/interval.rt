// What a tree has in a band of keys before each of the two ticks of an interval: one tree, so that its root list is walked once.
ghost use Rattle.std.specs.Prelude.{◌≡◌, ◌-◌, ◌≤◌, ◌<◌, length};
ghost use Rattle.tree.specs.Taking.{tree_with};
ghost use Rattle.store.specs.Reading.{pages_of};
ghost use Rattle.bands.specs.Bands.{without, in_band, band_before};

use crate::band::{lookup_band, lookup_band_before, without};
use crate::keys::Band;
use live::ForTwo;
use lookup_two::lookup_ticks_at;
use roots::{find_root, skip_later};
use tree::{Lookup, SpoiledPage, TreePages, TreeUse};

// What a tree has in a band before t2, and before t1.
#[derive(Clone, Copy)]
pub struct TwoBands {
    pub until: Result<Lookup, SpoiledPage>,
    pub before: Result<Lookup, SpoiledPage>,
}

// The band between two keys that were looked up together.
fn band_between(two: ForTwo<Result<Lookup, SpoiledPage>>) -> Result<Lookup, SpoiledPage>
    requires upper_bound { pages_of two.upper ≤ 8 }
    requires lower_bound { pages_of two.lower ≤ 8 }
    ensures { result ≡ without two.upper two.lower }
{
    without(two.upper, two.lower)
}

// One band after the other, where there is one tick or one key to look up.
fn lookup_in_turn(tree: TreePages, roots: &[u64], band: Band, t1: u32, t2: u32) -> TwoBands
    requires roots_in_bounds { tree.used.roots ≤ length roots.now }
    requires t1_lt_t2 { t1 < t2 }
    ensures until_value { result.until ≡ in_band (tree_with tree.entry roots.now) (t2 - 1) band.k1 band.k2 }
    ensures before_value { result.before ≡ band_before (tree_with tree.entry roots.now) t1 band.k1 band.k2 }
{
    TwoBands {
        until: lookup_band(tree, roots, t2 - 1, band),
        before: lookup_band_before(tree, roots, t1, band),
    }
}

// Both bands together, where there are two ticks and two keys.
fn lookup_together(tree: TreePages, roots: &[u64], band: Band, t1: u32, t2: u32) -> TwoBands
    requires roots_in_bounds { tree.used.roots ≤ length roots.now }
    requires k1_nonzero { 0 < band.k1 }
    requires t1_nonzero { 0 < t1 }
    requires t1_lt_t2 { t1 < t2 }
    ensures until_value { result.until ≡ in_band (tree_with tree.entry roots.now) (t2 - 1) band.k1 band.k2 }
    ensures before_value { result.before ≡ band_before (tree_with tree.entry roots.now) t1 band.k1 band.k2 }
{
    let entries = tree.used.roots as usize;
    let later = find_root(roots, entries, t2 - 1);
    let earlier = find_root(roots, entries, t1 - 1);
    let keys = ForTwo {
        lower: (band.k1 - 1) as u16,
        upper: (band.k2 - 1) as u16,
    };
    let found = lookup_ticks_at(tree, later, t2 - 1, earlier, t1 - 1, keys);
    TwoBands {
        until: band_between(found.later),
        before: band_between(found.earlier),
    }
}

// What a tree has in a band before tick t2, and before tick t1. What is born after the later tick is born after the earlier one too, so that both roots
// are found in one walk.
pub fn lookup_bands(tree: TreePages, roots: &[u64], band: Band, t1: u32, t2: u32) -> TwoBands
    requires roots_in_bounds { tree.used.roots ≤ length roots.now }
    requires t1_lt_t2 { t1 < t2 }
    ensures until_value { result.until ≡ in_band (tree_with tree.entry roots.now) (t2 - 1) band.k1 band.k2 }
    ensures before_value { result.before ≡ band_before (tree_with tree.entry roots.now) t1 band.k1 band.k2 }
{
    let entries = skip_later(roots, tree.used.roots as usize, t2 - 1);
    let walked = TreePages {
        table: tree.table,
        used: TreeUse {
            pages: tree.used.pages,
            roots: entries as u32,
        },
    };
    if t1 == 0 || band.k1 == 0 {
        return lookup_in_turn(walked, roots, band, t1, t2);
    }
    lookup_together(walked, roots, band, t1, t2)
}
