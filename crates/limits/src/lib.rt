// The limits of a sheet, by name, and the arrays that they size.
#![tactic(auto)]

ghost use Rattle.std.specs.Prelude.{◌≡◌, ◌-◌, ◌^◌, ◌<◌, ◌≤◌, get_or, set, SomeIff};
ghost use Rattle.limits.specs.Limits.{node_limit, depth_limit, row_limit};
ghost use Rattle.limits.specs.Words.{word_of};

// The words of lent work, and the bytes of a file.
pub const WORK: usize = 16384;

pub const BYTES: usize = 16384;

// Where the flags end.
pub const FLAGS: u8 = 8;

// The word of the lowest power, which has no size of 31 bits.
pub const LOWEST_POWER: u32 = 0x8000_0000;

// A sheet's statements and nodes.
pub const STATEMENTS: usize = 256;

pub const NODES: usize = 1024;

// The nodes of a small sheet, for which sharing clears less memory.
pub const SMALL: usize = 128;

// The trees in which sharing looks nodes up by their mixes: so many that few nodes share one.
pub const SLOTS: usize = 512;

// The levels of a tree.
pub const DEPTH: u32 = 64;

// Where stack indexes end.
pub const INDEXES: u32 = 65536;

// Rows of statements: the sheet's own, and one for each node's mark.
pub const ROWS: usize = STATEMENTS + NODES;

// And those of a small sheet.
pub const SMALL_ROWS: usize = 160;

// The bytes of a printed line, and of an answer's text: its first line, and a line for each six words of output.
pub const LINE: usize = 128;

pub const TEXT: usize = LINE * (WORK / 6 + 1);

// A word for each node, or for each of as many temporaries. A clause says its length where a proof needs it: the check knows it only
// where an index is used.
pub type PerNode = [u32; NODES];

// An optional number for each node, or for each of as many chains: a word each, 0 or 1 + the number, as get reads and set writes it.
// Options themselves could not be lent on, as the words of the chains are, for other numbers (fixed memory: 12 KB more of a call's
// stack); tried, they take 2% less time at 1,024 nodes, and 0.5 to 0.9% more at 16.
// A row's link and the words of the index are such words too: a type of one word would be packed and unpacked just where they are.
#[derive(Drop)]
pub struct Options {
    pub words: PerNode,
}

impl Options {
    // Inlined, as is set, for a node's number is asked for and matched at once.
    #[inline(always)]
    pub fn get(&self, i: u32) -> Option<u32>
        requires { i < node_limit }
        ensures { SomeIff result (1 ≤ get_or self.now.words i 0) (get_or self.now.words i 0 - 1) }
    {
        self.words[i as usize].checked_sub(1)
    }

    #[inline(always)]
    pub fn set(&mut self, i: u32, number: Option<u32>)
        requires inside { i < node_limit }
        requires fits { word_of number < 2 ^ 32 }
        ensures { self.new.words ≡ set self.old.words i (word_of number) }
    {
        self.words[i as usize] = number.map_or(0, |k| k + 1);
    }
}

// The array sizes and the depth are those of the definitions; contracts elsewhere hold the other limits to theirs.
pub fn nodes() -> usize
    ensures { result ≡ node_limit }
{
    NODES
}

pub fn depth() -> u32
    ensures { result ≡ depth_limit }
{
    DEPTH
}

pub fn rows() -> usize
    ensures { result ≡ row_limit }
{
    ROWS
}
