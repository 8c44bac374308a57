// The rules of tidying over linked rows, in the order of builder.rs.
#![tactic(auto)]

ghost use Rattle.std.specs.Prelude.{◌≡◌, false};
ghost use Rattle.tidying.specs.Tidy.{is_unary, times_rules, divide_rules, plus_rules, code_rules};
ghost use Rattle.links.specs.LinkedFrom.{Has};
ghost use Rattle.alike.specs.Alike.{Comparable};
ghost use Rattle.rules.specs.Moves.{goes, conjugates, units, tree, holds, Moves, NoneFits, Settles};

use links::LinkedRows;
use node::Node;
use operation::{BinaryCode, One, UnaryCode};
use values::Unit;

// What an operation over two rows is in the end.
#[derive(Clone, Copy)]
pub enum Made {
    Node(BinaryCode, u32, u32),
    Neg(u32),
    Alone(u32),
    Abs2(u32),
}

// What a rule that fits makes of it: its end, or an operation that goes through the rules again.
#[derive(Clone, Copy)]
pub enum Move {
    Ends(Made),
    Again(BinaryCode, u32, u32),
}

// What the rules look at: linked rows, and the table's values.
#[derive(Clone, Copy)]
pub struct Rules<'a> {
    pub links: LinkedRows<'a>,
    pub values: &'a [u8],
}

impl Rules<'_> {
    // Is row j a constant of the unit's value?
    #[tactic(auto, using(links::proofs::LinkedFrom::tree_of))]
    fn is_const(&self, j: u32, unit: Unit) -> bool
        requires { Has self.now.links j }
        ensures { result ≡ holds self.now unit j }
    {
        matches!(self.links.get(j),
            Node::Const(k) if values::is_unit(self.values, unit, u32::from(k)))
    }

    // Is it the unary of that code?
    #[tactic(auto, using(links::proofs::LinkedFrom::tree_of, crate::proofs::Rows::other_code))]
    fn is_unary(&self, j: u32, code: UnaryCode) -> bool
        requires { Has self.now.links j }
        ensures { result ≡ is_unary code (tree self.now j) }
    {
        matches!(self.links.get(j), Node::Unary(One::Unary(c)) if c == code)
    }

    // Is row a the conjugate of row b?
    fn is_conjugate(&self, a: u32, b: u32) -> bool
        requires { Comparable self.now.links a b }
        ensures { result ≡ conjugates (tree self.now a) (tree self.now b) }
    {
        self.is_unary(a, UnaryCode::Conjugate)
            && alike::same_rows(&self.links, self.links.left(a), b)
    }

    fn times_rules(&self, l: u32, r: u32) -> Option<Move>
        requires { Comparable self.now.links l r }
        ensures { Moves self.now (times_rules (units self.now)) l r result }
    {
        if self.is_const(l, Unit::MinusOne) {
            return Some(Move::Ends(Made::Neg(r)));
        }
        if self.is_const(r, Unit::MinusOne) {
            return Some(Move::Ends(Made::Neg(l)));
        }
        if self.is_const(l, Unit::One) {
            return Some(Move::Ends(Made::Alone(r)));
        }
        if self.is_const(r, Unit::One) {
            return Some(Move::Ends(Made::Alone(l)));
        }
        if self.is_unary(l, UnaryCode::Recip) {
            return Some(Move::Again(BinaryCode::Divide, r, self.links.left(l)));
        }
        if self.is_unary(r, UnaryCode::Recip) {
            return Some(Move::Again(BinaryCode::Divide, l, self.links.left(r)));
        }
        if self.is_conjugate(r, l) {
            return Some(Move::Ends(Made::Abs2(l)));
        }
        if self.is_conjugate(l, r) {
            return Some(Move::Ends(Made::Abs2(r)));
        }
        None
    }

    fn divide_rules(&self, l: u32, r: u32) -> Option<Move>
        requires { Comparable self.now.links l r }
        ensures { Moves self.now divide_rules l r result }
    {
        if self.is_unary(r, UnaryCode::Recip) {
            return Some(Move::Again(BinaryCode::Times, l, self.links.left(r)));
        }
        None
    }

    fn plus_rules(&self, l: u32, r: u32) -> Option<Move>
        requires { Comparable self.now.links l r }
        ensures { Moves self.now plus_rules l r result }
    {
        if self.is_unary(l, UnaryCode::Neg) {
            return Some(Move::Again(BinaryCode::Minus, r, self.links.left(l)));
        }
        if self.is_unary(r, UnaryCode::Neg) {
            return Some(Move::Again(BinaryCode::Minus, l, self.links.left(r)));
        }
        None
    }

    // What the first rule that fits makes, if one does.
    #[tactic(auto, unfolding(operation::specs::Numbers::binary_number))]
    fn code_rules(&self, code: BinaryCode, l: u32, r: u32) -> Option<Move>
        requires { Comparable self.now.links l r }
        ensures { Moves self.now (code_rules (units self.now) code) l r result }
    {
        match code {
            BinaryCode::Times => self.times_rules(l, r),
            BinaryCode::Divide => self.divide_rules(l, r),
            BinaryCode::Plus => self.plus_rules(l, r),
            _ => None,
        }
    }

    // May row a be the conjugate of row b? Its argument's mix tells, nearly always.
    fn may_conjugate(&self, a: u32, b: u32) -> bool
        requires { Comparable self.now.links a b }
        ensures { result ≡ false → conjugates (tree self.now a) (tree self.now b) ≡ false }
    {
        self.is_unary(a, UnaryCode::Conjugate) && self.links.same_mixes(self.links.left(a), b)
    }

    // Is row j a constant of the value −1 or 1, or a reciprocal?
    fn goes_away(&self, j: u32) -> bool
        requires { Has self.now.links j }
        ensures { result ≡ goes (units self.now) (tree self.now j) }
    {
        self.is_const(j, Unit::MinusOne)
            || self.is_const(j, Unit::One)
            || self.is_unary(j, UnaryCode::Recip)
    }

    // May a rule fit? Where it says no, none does.
    #[tactic(auto, unfolding(operation::specs::Numbers::binary_number))]
    pub fn may_fit(&self, code: BinaryCode, l: u32, r: u32) -> bool
        requires { Comparable self.now.links l r }
        ensures { result ≡ false → NoneFits self.now code l r }
    {
        match code {
            BinaryCode::Times => {
                self.goes_away(l)
                    | self.goes_away(r)
                    | self.may_conjugate(r, l)
                    | self.may_conjugate(l, r)
            }
            BinaryCode::Divide => self.is_unary(r, UnaryCode::Recip),
            BinaryCode::Plus => self.is_unary(l, UnaryCode::Neg) | self.is_unary(r, UnaryCode::Neg),
            _ => false,
        }
    }

    // The rules until none fits.
    pub fn settle(&self, code: BinaryCode, l: u32, r: u32) -> Made
        requires { Comparable self.now.links l r }
        ensures { Settles self.now code l r result }
    {
        match self.code_rules(code, l, r) {
            None => {
                // For the proof: a code's number is a byte.
                let _number = u8::from(code);
                Made::Node(code, l, r)
            }
            Some(Move::Ends(made)) => made,
            Some(Move::Again(c, x, y)) => self.settle(c, x, y),
        }
    }
}
