// What a tree has in a band of keys: lookups, one less another.
ghost use Rattle.std.specs.Prelude.{◌≡◌, ◌≤◌, length};
ghost use Rattle.tree.specs.Taking.{tree_with};
ghost use Rattle.store.specs.Reading.{pages_of};
ghost use Rattle.bands.specs.Bands.{without, in_band, band_before};

use crate::keys::Band;
use live::ForTwo;
use lookup::lookup_at;
use lookup_two::lookup_two_at;
use roots::find_root;
use tree::{Lookup, SpoiledPage, TreePages};
use words::Value;

// One lookup less another, spoiled where one of them is. The pages of both were opened.
pub fn without(
    all: Result<Lookup, SpoiledPage>,
    part: Result<Lookup, SpoiledPage>,
) -> Result<Lookup, SpoiledPage>
    requires all_bound { pages_of all ≤ 8 }
    requires part_bound { pages_of part ≤ 8 }
    ensures { result ≡ without all part }
{
    let all = all?;
    let part = part?;
    Ok(Lookup {
        value: all.value.minus(part.value),
        pages: all.pages + part.pages,
    })
}

// What a tree has at t in a band. The root list is searched once. No key is below 0: with k1 = 0 nothing is looked up
// below the band.
pub fn lookup_band(
    tree: TreePages,
    roots: &[u64],
    t: u32,
    band: Band,
) -> Result<Lookup, SpoiledPage>
    requires { tree.used.roots ≤ length roots.now }
    ensures { result ≡ in_band (tree_with tree.entry roots.now) t band.k1 band.k2 }
{
    let root = find_root(roots, tree.used.roots as usize, t);
    let last_key = (band.k2 - 1) as u16;
    if band.k1 == 0 {
        return lookup_at(tree, root, t, last_key);
    }
    let keys = ForTwo {
        lower: (band.k1 - 1) as u16,
        upper: last_key,
    };
    let two = lookup_two_at(tree, root, t, keys);
    without(two.upper, two.lower)
}

// What a tree has in a band before tick t1. No tick is before 0: with t1 = 0 nothing is looked up and no page opened.
pub fn lookup_band_before(
    tree: TreePages,
    roots: &[u64],
    t1: u32,
    band: Band,
) -> Result<Lookup, SpoiledPage>
    requires { tree.used.roots ≤ length roots.now }
    ensures { result ≡ band_before (tree_with tree.entry roots.now) t1 band.k1 band.k2 }
{
    if t1 == 0 {
        return Ok(Lookup {
            value: Value::zero(),
            pages: 0,
        });
    }
    lookup_band(tree, roots, t1 - 1, band)
}
