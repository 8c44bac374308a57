// Are the trees of two linked rows the same? In place, with nothing copied; rows with other mixes are not looked at.
#![tactic(auto)]

ghost use Rattle.std.specs.Prelude.{◌≡◌};
ghost use Rattle.definitions.specs.Same.{same};
ghost use Rattle.links.specs.Links.{linked};
ghost use Rattle.alike.specs.Alike.{Comparable, Pairs, same_both};

use links::LinkedRows;
use node::Node;

// Sides are compared where their mixes agree, so nearly only where they are the same: straight, or exchanged where that is allowed.
// Under one head both rows have a right side or neither has, so the last arm is that of rows without sides.
#[cycle(same_both_same_rows)]
pub fn same_rows(links: &LinkedRows, a: u32, b: u32) -> bool
    requires { Comparable links.now a b }
    ensures { result ≡ same (linked links.now.rows.now a) (linked links.now.rows.now b) }
{
    if !links.same_mixes(a, b) || !links.same_heads(a, b) {
        return false;
    }
    let l = links.left(a);
    let x = links.left(b);
    match (links.get(a), links.right(b)) {
        (Node::Unary(_), _) => same_rows(links, l, x),
        (Node::Binary(o, r), Some(y)) => {
            same_both(links, l, r, x, y) || node::exchanges_sides(o) && same_both(links, l, r, y, x)
        }
        _ => true,
    }
}

// Left with left and right with right. Compare has this line over views: one function for both would take a closure, and be no plainer.
#[cycle(same_both_same_rows)]
fn same_both(links: &LinkedRows, l: u32, r: u32, x: u32, y: u32) -> bool
    requires { Pairs links.now l r x y }
    ensures { result ≡ same_both (linked links.now.rows.now l) (linked links.now.rows.now r)
        (linked links.now.rows.now x) (linked links.now.rows.now y) }
{
    same_rows(links, l, x) && same_rows(links, r, y)
}
