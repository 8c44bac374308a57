// The mix of a tree as its marks show it: it picks the earlier calls that a call is compared with.
#![tactic(auto)]

ghost use Rattle.keys.specs.Mixed.{MixReady, SeenMixed, ViewMixed};

use compare::Trees;
use node::Node;

// Node i as its mark has it.
#[cycle(mix_seen_mix_view)]
#[tactic(auto, using(compare::proofs::MarksDecide::node_low, crate::proofs::Mixing::marked_mixed))]
pub fn mix_view(trees: &Trees, i: u32) -> u64
    requires { MixReady trees.now i }
    ensures { ViewMixed trees.now i result }
{
    match trees.marks.get(i) {
        Some(temporary) => mix::mix_temporary(temporary),
        None => mix_seen(trees, i),
    }
}

// And without its mark. Not by mix::mix_node: tried, and the proof didn't close, as its closure's clauses can't name node i.
// Only this node is asked to lie among the words, as in compare: get would ask more of callers.
#[cycle(mix_seen_mix_view)]
#[tactic(auto, using(compare::proofs::MarksDecide::node_low))]
pub fn mix_seen(trees: &Trees, i: u32) -> u64
    requires { MixReady trees.now i }
    ensures { SeenMixed trees.now i result }
{
    let node = node::unpack(trees.nodes.words, i);
    let s = mix::seed_of(node);
    match node {
        Node::Const(_) | Node::Var(_) => mix::mix_leaf(s),
        Node::Unary(_) => {
            let a = mix_view(trees, i + 1);
            mix::mix_one(s, a)
        }
        Node::Binary(o, right) => {
            // Asked before the calls, so that they keep a bool and not the operator.
            let k = node::exchanges_sides(o);
            let a = mix_view(trees, i + 1);
            let b = mix_view(trees, right);
            mix::mix_two(s, k, a, b)
        }
    }
}
