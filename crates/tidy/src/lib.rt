// A sheet's trees tidied, in the words in which they were read.
#![tactic(auto)]

ghost use Rattle.std.specs.Prelude.{◌*◌, ◌+◌, ◌^◌, ◌<◌, ◌≤◌, length};
ghost use Rattle.statement.specs.Handover.{SheetHeld};
ghost use Rattle.links.specs.Links.{linked};
ghost use Rattle.tidy.specs.Relaying.{root_trees, Linked, Relaid, SheetTidied};

use limits::{NODES, SMALL};
use node::NodeTable;
use statement::Row;

// The words of the linked rows, of a small sheet and of any.
const SMALL_LINKS: usize = 4 * SMALL;

const LINKS: usize = 4 * NODES;

// Fresh nodes over those as read, from the linked rows of each statement's tree; the number of nodes after. Of the rows' words alone, as
// links::lay: a LinkedRows holds mixes too.
fn lay_all(links: &[u32], ws: &mut [u32], rows: &mut [Row]) -> u32
    requires { Linked links.now rows.old (length rows.old) }
    ensures { Relaid (root_trees (linked links.now) rows.old 0 (length rows.old)) ws.old
        rows.old ws.new rows.new (length rows.old) result }
{
    let mut m: u32 = 0;
    for row in rows.iter_mut() {
        if let Row::Given { place, root } = *row {
            *row = Row::Given { place, root: m };
            m = links::lay(links, root, ws, m);
        }
    }
    m
}

// Linked rows for all nodes as read, then, if a rule fitted, fresh nodes; with room for so many words of rows, and so many mixes.
// No Sheet, here and below: its facts hold while nothing changes, and words and rows are laid anew here.
fn tidy_rows<const WORDS: usize, const MIXES: usize>(
    values: &[u8],
    ws: &mut [u32],
    rows: &mut [Row],
    n: u32,
) -> u32
    requires held { SheetHeld ws.old rows.old n (length rows.old) }
    requires room { (4 * n ≤ WORDS) × (n ≤ MIXES) }
    requires small { WORDS + MIXES < 2 ^ 32 }
    ensures { SheetTidied values.now ws.old rows.old ws.new
        rows.new (length rows.old) n result }
{
    let mut words = [0u32; WORDS];
    let mut mixes = [0u64; MIXES];
    let links = &mut words[..];
    let links = &mut links[0..4 * n as usize];
    let nodes = NodeTable {
        words: ws,
        count: n,
    };
    if !linking::link(&nodes, links, &mut mixes, values) {
        return n;
    }
    lay_all(links, ws, rows)
}

// The trees of a sheet of n nodes, tidied: the number of nodes after. A small sheet gets small arrays.
pub fn tidy_sheet(values: &[u8], ws: &mut [u32], rows: &mut [Row], n: u32) -> u32
    requires { SheetHeld ws.old rows.old n (length rows.old) }
    ensures { SheetTidied values.now ws.old rows.old ws.new
        rows.new (length rows.old) n result }
{
    if n <= SMALL as u32 {
        tidy_rows::<SMALL_LINKS, SMALL>(values, ws, rows, n)
    } else {
        tidy_rows::<LINKS, NODES>(values, ws, rows, n)
    }
}
