// Linked rows for the nodes as read, tidied from the leaves up.
#![tactic(auto)]

ghost use Rattle.std.specs.Prelude.{◌≡◌, false, ◌*◌, ◌≤◌, length};
ghost use Rattle.operation.specs.declared.One.TheVariants.{Unary as UnaryOne};
ghost use Rattle.operation.specs.declared.Two.TheVariants.{Binary as BinaryTwo};
ghost use Rattle.node.specs.declared.Node.TheVariants.{Unary as UnaryNode};
ghost use Rattle.node.specs.Sides.{Sides, tree_over};
ghost use Rattle.node.specs.Sized.{SizedNode};
ghost use Rattle.tidying.specs.Tidy.{alone, joined};
ghost use Rattle.mix.specs.Mix.{mix};
ghost use Rattle.links.specs.Links.{linked};
ghost use Rattle.links.specs.LinkedFrom.{Has};
ghost use Rattle.alike.specs.Alike.{Comparable};
ghost use Rattle.rules.specs.Moves.{units, tree};
ghost use Rattle.linking.specs.Rows.{Tidied, Kept};
ghost use Rattle.linking.specs.NewRows.{Makes, Joins};

use links::LinkedRows;
use node::{Node, NodeTable};
use operation::{BinaryCode, One, Two, UnaryCode};
use rules::{Made, Rules};

// A row to come before the linked ones: its node, and the number of its left side.
#[derive(Clone, Copy)]
struct NewRow {
    node: Node,
    left: u32,
}

// The unary of a code over row j.
fn unary_row(code: UnaryCode, j: u32) -> NewRow
    ensures node { result.node ≡ UnaryNode (UnaryOne code) }
    ensures left { result.left ≡ j }
{
    NewRow {
        node: Node::Unary(One::Unary(code)),
        left: j,
    }
}

// 1 times row j: row j's own node, or the real part of a constant.
fn alone_row(links: &LinkedRows, j: u32) -> NewRow
    requires { Has links.now j }
    ensures { Makes links.now result (alone (linked links.now.rows.now j)) }
{
    let node = links.get(j);
    let left = links.left(j);
    match node {
        Node::Const(_) => unary_row(UnaryCode::Real, j),
        _ => NewRow { node, left },
    }
}

// The operation of a code over rows l and r, tidied.
fn binary_row(rules: &Rules, code: BinaryCode, l: u32, r: u32) -> NewRow
    requires { Comparable rules.now.links l r }
    ensures { Makes rules.now.links result (joined (units rules.now) (BinaryTwo code) (tree rules.now l) (tree rules.now r)) }
{
    match rules.settle(code, l, r) {
        Made::Node(c, x, y) => NewRow {
            node: Node::Binary(Two::Binary(c), y),
            left: x,
        },
        Made::Neg(j) => unary_row(UnaryCode::Neg, j),
        Made::Alone(j) => alone_row(&rules.links, j),
        Made::Abs2(j) => unary_row(UnaryCode::Abs2, j),
    }
}

// A node over linked rows, and whether a rule may fit, which only binaries have.
fn node_row<'a>(links: LinkedRows<'a>, values: &'a [u8], node: Node, left: u32) -> (NewRow, bool)
    requires sized { SizedNode node }
    requires sides { Sides (Has links) left node }
    ensures { Joins links.entry values.now node left result }
{
    let rules = Rules { links, values };
    match node {
        Node::Binary(Two::Binary(code), right) if rules.may_fit(code, left, right) => {
            (binary_row(&rules, code, left, right), true)
        }
        _ => (NewRow { node, left }, false),
    }
}

// The mix of a new row's tree, from those of its sides.
fn mix_row(links: &LinkedRows, row: NewRow) -> u64
    requires { Sides (Has links.now) row.left row.node }
    ensures { result ≡ mix (tree_over (linked links.now.rows.now) row.left row.node) }
{
    mix::mix_node(row.node, row.left, |j| links.mix(j))
}

// Every row, from the last node to the first; whether a rule may have fitted.
pub fn link(nodes: &NodeTable, rows: &mut [u32], mixes: &mut [u64], values: &[u8]) -> bool
    requires { (length rows.old ≡ 4 * nodes.now.count) × (nodes.now.count ≤ length mixes.old) }
    ensures { Tidied values.now nodes.now.words.now rows.new 0
        × (length rows.new ≡ 4 * nodes.now.count) × (result ≡ false → Kept nodes.now.words.now rows.new 0) }
{
    let mut changed = false;
    for i in (0..nodes.count).rev() {
        let links = LinkedRows {
            rows,
            mixes,
            from: i + 1,
        };
        let (row, ruled) = node_row(links, values, nodes.get(i), i + 1);
        let mix = mix_row(&links, row);
        changed |= ruled;
        node::put(rows, i, row.node, row.left);
        mixes[i as usize] = mix;
    }
    changed
}
