// The printed text of an answer, written into lent bytes.
//
// std's Display fixes the bytes of a write that answers Ok, and never says that one does; this text cannot fail, so it is written by hand.
#![tactic(auto)]

ghost use Rattle.std.specs.Prelude.{◌≡◌, ◌++◌, ◌+◌, ◌*◌, ◌≤◌, length};
ghost use Rattle.limits.specs.Limits.{line_limit};
ghost use Rattle.symbol.specs.Place.{word_place, index_of};
ghost use Rattle.operation.specs.Names.{binary_name};
ghost use Rattle.definitions.specs.Text.{decimal, register_text, place_text, constant_text};
ghost use Rattle.text.specs.Line.{words_text, lines_of, counts_text, refused_text, answer_of, WritesAnswer};

use operation::{Kind, RET, TEMP};
use symbol::Loc;

// The text so far: the first `len` of the bytes that are lent, and no String, since there is no heap.
#[derive(Drop)]
struct Text<'a> {
    bytes: &'a mut [u8],
    len: usize,
}

// Room is a need of each call and no ghost field, for each call takes some; and that the text goes on in the same bytes is a relation
// of two states, which cannot stand in a type.
impl Text<'_> {
    ghost use Rattle.text.specs.Text.{HasRoom, Adds};

    // Writes s.
    fn push(&mut self, s: &str) -> &mut Self
        requires { HasRoom self.old (length s.now) }
        ensures same { result.ghost_name ≡ self.entry.ghost_name }
        ensures adds { Adds self.old s.now (length s.now) result.now }
    {
        let end = self.len + s.len();
        let all = &mut self.bytes[..];
        all[self.len..end].copy_from_slice(s.as_bytes());
        self.len = end;
        self
    }

    // Writes a number.
    fn decimal(&mut self, n: u32) -> &mut Self
        requires { HasRoom self.old 10 }
        ensures same { result.ghost_name ≡ self.entry.ghost_name }
        ensures adds { Adds self.old (decimal n) 10 result.now }
    {
        self.push(itoa::Buffer::new().format(n))
    }

    // Temp and Ret by their letters, any other register by its number.
    fn register(&mut self, r: u32) -> &mut Self
        requires { HasRoom self.old 12 }
        ensures same { result.ghost_name ≡ self.entry.ghost_name }
        ensures adds { Adds self.old (register_text r) 12 result.now }
    {
        match r {
            TEMP => self.push(" t"),
            RET => self.push(" v"),
            _ => self.push(" r").decimal(r),
        }
    }

    // The place of a word.
    fn place(&mut self, w: u32) -> &mut Self
        requires { HasRoom self.old 12 }
        ensures same { result.ghost_name ≡ self.entry.ghost_name }
        ensures adds { Adds self.old (place_text (word_place w)) 12 result.now }
    {
        let p = Loc::from(w);
        self.push(letter(p)).decimal(u32::from(p.index()))
    }

    // A constant's index.
    fn constant(&mut self, i: u32) -> &mut Self
        requires { HasRoom self.old 12 }
        ensures same { result.ghost_name ≡ self.entry.ghost_name }
        ensures adds { Adds self.old (constant_text i) 12 result.now }
    {
        self.push(" c").decimal(i)
    }

    // The start of a line with a binary code: kind, name, destination and first source.
    #[tactic(auto, using(operation::proofs::Names::binary_name_short))]
    fn math(&mut self, kind: &str, number: u32, d: u32, s: u32) -> &mut Self
        requires { HasRoom self.old 46 × (length kind.now ≤ 10) }
        ensures same { result.ghost_name ≡ self.entry.ghost_name }
        ensures adds { Adds self.old (kind.now ++ binary_name number ++ register_text d ++ register_text s) 46 result.now }
    {
        self.push(kind)
            .push(operation::binary_name(number))
            .register(d)
            .register(s)
    }

    // An operation by its six words: kind, code where there is one, destination, sources, place.
    #[tactic(auto, using(operation::proofs::Names::unary_name_short))]
    fn op(&mut self, words: [u32; 6]) -> &mut Self
        requires { HasRoom self.old 58 }
        ensures same { result.ghost_name ≡ self.entry.ghost_name }
        ensures adds { Adds self.old (words_text words) 58 result.now }
    {
        let [kind, code, d, s1, s2, place] = words;
        match Kind::from(kind) {
            Kind::LoadConst => self.push("const").register(d).constant(place),
            Kind::LoadVar => self.push("load").register(d).place(place),
            Kind::Save => self.push("save").register(s1).place(place),
            Kind::Mov => self.push("move").register(d).register(s1),
            Kind::Xchg => self.push("swap").register(d).register(s1),
            Kind::Uni => self
                .push("uni ")
                .push(operation::unary_name(code))
                .register(d)
                .register(s1),
            Kind::Bi => self.math("bi ", code, d, s1).register(s2),
            Kind::IfElse => self
                .push("ifelse")
                .register(d)
                .register(s1)
                .register(s2)
                .place(place),
            Kind::LoadMath => self.math("loadmath ", code, d, s1).place(place),
            Kind::LoadConstMath => self.math("constmath ", code, d, s1).constant(place),
            Kind::Call => self.push("call f").decimal(code).push(" ").decimal(s1),
            Kind::Need => self.push("need ").decimal(code),
        }
    }

    // The lines of the first n operations of the words.
    fn lines(&mut self, out: &[u32], n: usize) -> &mut Self
        requires words { 6 * n ≤ length out.now }
        requires room { HasRoom self.old (line_limit * n) }
        ensures same { result.ghost_name ≡ self.entry.ghost_name }
        ensures adds { Adds self.old (lines_of out.now n) (line_limit * n) result.now }
    {
        let (ops, _) = out.as_chunks::<6>();
        for words in &ops[..n] {
            self.op(*words).push("\n");
        }
        self
    }
}

// A space and the letter of a place's kind.
#[tactic(auto, unfolding(operation::specs::Names::bytes))]
fn letter(p: Loc) -> &'static str
    ensures text { place_text p ≡ result.now ++ decimal (index_of p) }
    ensures two { length result.now ≡ 2 }
{
    match p {
        Loc::Stack(_) => " s",
        Loc::Mem(_) => " m",
        Loc::Param(_) => " p",
    }
}

// The whole text of an answer, at the start of a text, and its length. The answer comes as its three numbers, any that there are: their
// struct stands with its From in crate zubmanger, and the text needs nothing else of the compiler.
pub fn answer_text(number: u32, ops: u32, temps: u32, out: &[u32], text: &mut [u8]) -> usize
    requires ops_in_bounds { 6 * ops ≤ length out.now }
    requires ops_in_bounds_2 { line_limit * (ops + 1) ≤ length text.old }
    ensures { WritesAnswer (answer_of number ops temps out.now) text.old text.new result }
{
    let mut t = Text {
        bytes: text,
        len: 0,
    };
    if number == 0 {
        t.push("ops ")
            .decimal(ops)
            .push(" temps ")
            .decimal(temps)
            .push("\n")
            .lines(out, ops as usize);
    } else {
        t.push("refused ").decimal(number).push("\n");
    }
    t.len
}
