// Calls: an earlier one that is the same is sought, and a new one gets a row and a temporary.
#![tactic(auto)]

ghost use Rattle.std.specs.Prelude.{◌≡◌, ◌∷◌, [], ◌+◌, ◌<◌, ◌≤◌};
ghost use Rattle.limits.specs.Limits.{row_limit, temporary_limit};
ghost use Rattle.limits.specs.Words.{word_of};
ghost use Rattle.statement.specs.Rows.{RoomFor, row_at};
ghost use Rattle.calls.specs.Index.{slot, key_of};
ghost use Rattle.calls.specs.Progress.{progress_of, rows_of, with_row, RowReady, SameTrimmer};
ghost use Rattle.calls.specs.Calls.{with_call, Seeks, SeeksFrom, AsksRow, Finds, BreaksReady, Breaks};

use compare::Trees;
use header::Header;
use limits::{NODES, Options};
use node::NodeTable;
use statement::{Row, State};

// What trimming goes by: the sheet's scratch count, and whether earlier calls are sought.
#[derive(Clone, Copy)]
pub struct Settings {
    pub scratch: u32,
    pub sharing: bool,
}

impl From<Header> for Settings {
    ghost use Rattle.calls.specs.Going.{settings_of};

    ghost from_gives = { λ h s. s ≡ settings_of h };

    fn from(header: Header) -> Settings {
        Settings {
            scratch: header.scratch,
            sharing: header.sharing,
        }
    }
}

// Trimming as far as it has come: the temporary of each node that has a mark; the rows, lent in an array that the state counts (fixed
// memory: there is no heap for as many as there are); the last row of each chain of calls. Room for a row is a need of each call and no
// ghost field: each call moves it.
#[derive(Drop)]
pub struct Trimmer<'a> {
    pub nodes: NodeTable<'a>,
    pub settings: Settings,
    pub marks: &'a mut Options,
    pub rows: &'a mut [Row],
    pub heads: &'a mut Options,
    pub state: State,
}

// The chain of the calls with the mix m, by its lowest bits, and their key, which tells calls of one chain apart: its uppermost bits.
fn slot_of(m: u64) -> u32
    ensures { result ≡ slot m }
{
    (m % NODES as u64) as u32
}

fn key_of(m: u64) -> u32
    ensures { result ≡ key_of m }
{
    (m >> 32) as u32
}

// What changes a trimmer says by `same` that it goes by the same nodes and settings: a relation of two states, which no type can say.
impl Trimmer<'_> {
    // The trees as the marks show them so far.
    fn trees(&self) -> Trees<'_>
        ensures nodes { result.nodes ≡ self.now.nodes }
        ensures marks { result.marks.now ≡ self.now.marks.now }
    {
        Trees {
            nodes: self.nodes,
            marks: self.marks,
        }
    }

    // The temporary of row k, if it makes the same call as node i. Trees are compared only where the keys agree.
    fn hits(&self, i: u32, key: u32, k: u32) -> Option<u32>
        requires { AsksRow self.now i key k }
        ensures { Finds self.now i (row_at self.now.rows.now k ∷ []) result }
    {
        let row = self.rows[k as usize];
        match row {
            Row::Made {
                temporary,
                root,
                key: own,
                ..
            } if own == key && self.trees().same_nodes(root, i) => Some(temporary),
            _ => None,
        }
    }

    // The temporary of the first row that makes the same call as node i: by the links of its chain, from its last row.
    #[tactic(auto, using(crate::proofs::Search::along_chain))]
    fn seek(&self, i: u32, last: Option<u32>, key: u32) -> Option<u32>
        requires ready { SeeksFrom self.now i (word_of last) key }
        requires sought { Seeks self.now i (rows_of (progress_of self.now)) }
        requires room { RoomFor self.now.rows.now self.now.state.count }
        ensures { Finds self.now i (rows_of (progress_of self.now)) result }
    {
        let mut found = None;
        let mut link = last;
        while let Some(k) = link {
            found = self.hits(i, key, k).or(found);
            link = self.rows[k as usize].link();
        }
        found
    }

    // Puts a row after those so far.
    pub fn put(&mut self, row: Row)
        requires { RowReady (progress_of self.old) }
        ensures same { SameTrimmer self.old self.new }
        ensures put { progress_of self.new ≡ with_row (progress_of self.old) row }
    {
        self.rows[self.state.count as usize] = row;
        self.state.count += 1;
    }

    // A row for the call of node i, with its key, linked to another of its chain if there is one, and the next temporary.
    fn new_call(&mut self, i: u32, link: Option<u32>, key: u32) -> u32
        requires room { RowReady (progress_of self.old) }
        requires low { self.old.state.next < temporary_limit }
        requires linked { word_of link ≤ row_limit }
        ensures same { SameTrimmer self.old self.new }
        ensures answer { result ≡ self.old.state.next }
        ensures put { progress_of self.new ≡ with_call (progress_of self.old) i (word_of link) key }
    {
        let next = self.state.next;
        self.put(Row::Made {
            temporary: next,
            root: i,
            link: link.map_or(0, |k| k + 1),
            key,
        });
        self.state.next += 1;
        next
    }

    // The temporary of the call at node i, whose arguments are trimmed: with sharing on an earlier call's; where there is none, a new one.
    #[tactic(auto, using(crate::proofs::Search::ready_comparable, crate::proofs::Search::chain_low))]
    pub fn break_call(&mut self, i: u32) -> u32
        requires { BreaksReady self.old i }
        ensures same { SameTrimmer self.old self.new }
        ensures broken { Breaks self.old self.new i result }
    {
        if !self.settings.sharing {
            return self.new_call(i, None, 0);
        }
        let m = keys::mix_seen(&self.trees(), i);
        let at = slot_of(m);
        let link = self.heads.get(at);
        let key = key_of(m);
        match self.seek(i, link, key) {
            Some(temporary) => temporary,
            None => {
                self.heads.set(at, Some(self.state.count));
                self.new_call(i, link, key)
            }
        }
    }
}
