// Tidied trees as linked rows, and the fresh nodes that are laid from them.
#![tactic(auto)]

ghost use Rattle.std.specs.Prelude.{◌≡◌, eqb};
ghost use Rattle.node.specs.Nodes.{node_at, end_at, same_head};
ghost use Rattle.node.specs.Sides.{right_of};
ghost use Rattle.mix.specs.Mix.{mix};
ghost use Rattle.links.specs.Links.{Links, linked, Fits, Lays};
ghost use Rattle.links.specs.Mixes.{Mixed};
ghost use Rattle.links.specs.Propositions.{links_prop};

use node::Node;

// Linked rows and the mixes of their trees: rows are linked from the last to the first, and those before row `from` are not yet.
#[derive(Clone, Copy)]
pub struct LinkedRows<'a> {
    pub rows: &'a [u32],
    pub mixes: &'a [u64],
    pub from: u32,
    ghost linked: { Links rows.now from } by { links_prop rows.now from },
    ghost mixed: { Mixed rows.now mixes.now from },
}

impl LinkedRows<'_> {
    ghost use Rattle.links.specs.LinkedFrom.{Has};

    pub fn get(&self, i: u32) -> Node
        requires { Has self.now i }
        ensures { result ≡ node_at self.now.rows.now i }
    {
        node::unpack(self.rows, i)
    }

    // The number of its left side.
    pub fn left(&self, i: u32) -> u32
        requires { Has self.now i }
        ensures { result ≡ end_at self.now.rows.now i }
    {
        node::end_of(self.rows, i)
    }

    // The number of its right side, where it has one.
    pub fn right(&self, i: u32) -> Option<u32>
        requires { Has self.now i }
        ensures { result ≡ right_of (node_at self.now.rows.now i) }
    {
        self.get(i).right()
    }

    pub fn mix(&self, i: u32) -> u64
        requires { Has self.now i }
        ensures { result ≡ mix (linked self.now.rows.now i) }
    {
        self.mixes[i as usize]
    }

    #[tactic(auto, using(crate::proofs::LinkedFrom::packed_of))]
    pub fn same_heads(&self, a: u32, b: u32) -> bool
        requires { Has self.now a × Has self.now b }
        ensures { result ≡ same_head (node_at self.now.rows.now a) (node_at self.now.rows.now b) }
    {
        node::same_heads(self.rows, a, b)
    }

    // Rows with other mixes have other trees.
    pub fn same_mixes(&self, a: u32, b: u32) -> bool
        requires { Has self.now a × Has self.now b }
        ensures { result ≡ eqb (mix (linked self.now.rows.now a)) (mix (linked self.now.rows.now b)) }
    {
        self.mix(a) == self.mix(b)
    }
}

// The tree of row i from node m on: the number after its last node. Of the words alone: a LinkedRows holds mixes, which laying never needs.
pub fn lay(rows: &[u32], i: u32, ws: &mut [u32], m: u32) -> u32
    requires { Fits rows.now i m }
    ensures { Lays rows.now i m ws.old ws.new result }
{
    let node = node::unpack(rows, i);
    let left = node::end_of(rows, i);
    let (x, end) = match node {
        Node::Const(_) | Node::Var(_) => (node, m + 1),
        Node::Unary(_) => (node, lay(rows, left, ws, m + 1)),
        Node::Binary(o, right) => {
            let mid = lay(rows, left, ws, m + 1);
            (Node::Binary(o, mid), lay(rows, right, ws, mid))
        }
    };
    node::put(ws, m, x, end);
    end
}
