// Reads a sheet from standard input and prints its list, or the number of its refusal.
#![tactic(auto)]

ghost use Rattle.std.specs.Prelude.{◌≡◌, ◌≤◌, length, take};
ghost use Rattle.io.specs.Counts.{IsPrefixLen};
ghost use Rattle.limits.specs.Limits.{work_words, text_limit};
ghost use Rattle.definitions.specs.Answer.{answer};
ghost use Rattle.definitions.specs.Text.{answer_text};

use limits::{BYTES, TEXT, WORK};
use zubmanger::Numbers;

// Writes the text of the answer to a file at the start of a text, and answers its length.
#[tactic(auto, using(text::proofs::Texts::parts_room, text::proofs::Texts::parts_written))]
fn answered(file: &[u8], text: &mut [u8]) -> usize
    requires { text_limit ≤ length text.old }
    ensures text_after { take result text.new ≡ answer_text (answer file.now work_words work_words) }
    ensures prefix_len { IsPrefixLen result text.new }
{
    let mut work = [0u32; WORK];
    let mut out = [0u32; WORK];
    let Numbers { number, ops, temps } = zubmanger::zubmanger_compile(file, &mut work, &mut out);
    text::answer_text(number, ops, temps, &out, text)
}

// One byte more is read than a sheet may have, so that a longer one is seen.
// It reads and writes by the kit's io, for std's would assume C's errno beside C's read and write.
fn main() {
    let mut file = [0u8; BYTES + 1];
    let mut text = [0u8; TEXT];
    let n = io::read_full(0, &mut file);
    let m = answered(&file[..n], &mut text);
    io::write_all(1, &text[..m]);
}
