// Replays the recorded vectors: compiles each sheet and compares the answer with what is recorded.
#![tactic(auto)]

ghost use Rattle.std.specs.Prelude.{◌≡◌, ◌*◌, ◌≤◌, length, drop};
ghost use Rattle.limits.specs.Limits.{work_words};
ghost use Rattle.definitions.specs.Answer.{answer};
ghost use Rattle.replay.specs.Vector.{all_zero, given_answer, recorded, recorded_zero};
ghost use Rattle.replay.specs.Vector.{lent_holds, asks, holds, vector_count, wrong_count};

use limits::{BYTES, TEXT, WORK};
use vectors::Cursor;
use zubmanger::Numbers;

// How many vectors there are, and how many of them differ.
#[derive(Clone, Copy, Debug, Default, PartialEq, Eq)]
struct Tally {
    count: usize,
    wrong: usize,
}

// Whether words are all zero.
fn is_zero(words: &[u32]) -> bool
    ensures { result ≡ all_zero words.now }
{
    words.iter().all(|&w| w == 0)
}

// Whether a text begins with an answer's, and a line `end` after it, and the output past the list is zero.
fn printed(mut text: Cursor, answer: Numbers, out: &[u32]) -> bool
    requires { (6 * answer.ops ≤ length out.now) × (length out.now ≤ work_words) }
    ensures { result ≡ recorded_zero text.entry.text.now (given_answer answer out.now) }
{
    let Numbers { number, ops, temps } = answer;
    let mut expected = [0u8; TEXT];
    let n = text::answer_text(number, ops, temps, out, &mut expected);
    text.skip(&expected[..n]);
    text.begins(b"end\n") && is_zero(&out[6 * ops as usize..])
}

// A text and a file go on apart, here and below: a file is a part of an array that `holds` has, and a struct of both would be made for
// these calls alone.

// Whether a sheet is answered as recorded. That the work and the rest of the output are zero always holds, and is checked too.
fn answered(text: Cursor, file: &[u8], work: &mut [u32], out: &mut [u32]) -> bool
    requires { length out.old ≤ work_words }
    ensures { result ≡ recorded text.entry.text.now (answer file.now (length work.old) (length out.old)) }
{
    let answer = zubmanger::zubmanger_compile(file, work, out);
    is_zero(work) && printed(text, answer, out)
}

// The same with so many words lent, if there are so many, none of which is zero before.
fn lent(text: Cursor, file: &[u8], works: usize, outs: usize) -> bool
    ensures { result ≡ lent_holds text.entry.text.now file.now works outs }
{
    if works > WORK || outs > WORK {
        return false;
    }
    let mut work = [7u32; WORK];
    let mut out = [7u32; WORK];
    answered(text, file, &mut work[..works], &mut out[..outs])
}

// The same with the words to lend and the answer that the text has.
fn asked(mut text: Cursor, file: &[u8]) -> bool
    ensures { result ≡ asks text.entry.text.now file.now }
{
    text.skip(b"\nlent ");
    let works = text.read_number();
    text.skip(b" ");
    let outs = text.read_number();
    text.skip(b"\n");
    lent(text, file, works, outs)
}

// Whether the vector that the text begins with holds.
fn holds(mut text: Cursor) -> bool
    ensures { result ≡ holds text.entry.text.now }
{
    let mut file = [0u8; BYTES + 1];
    text.skip(b"sheet ");
    let n = text.read_bytes(&mut file);
    asked(text, &file[..n])
}

// Names the vector that was counted last, which does not hold, if it is among the first ten such.
fn tell(t: Tally) {
    if t.wrong <= 10 {
        io::write_all(1, b"vector ");
        io::print_decimal(1, t.count as u64);
        io::write_all(1, b" differs\n");
    }
}

// Prints how many vectors there are, and how many differ.
fn tell_all(t: Tally) {
    io::print_decimal(1, t.count as u64);
    io::write_all(1, b" vectors, ");
    io::print_decimal(1, t.wrong as u64);
    io::write_all(1, b" differ\n");
}

// Replays every vector, names those that differ, and counts both.
fn replay(all: &[u8]) -> Tally
    ensures { (result.count ≡ vector_count all.now) × (result.wrong ≡ wrong_count all.now) }
{
    let mut text = Cursor { text: all };
    let mut t = Tally::default();
    text.skip_comments();
    while !text.is_empty() {
        t.count += 1;
        if !holds(text) {
            t.wrong += 1;
            tell(t);
        }
        text.skip_vector();
        text.skip_comments();
    }
    t
}

// It reads and writes by the kit's io, for std's would assume C's errno beside C's read and write.
fn main() {
    let mut buffer = [0u8; 1048576];
    let n = io::read_full(0, &mut buffer);
    tell_all(replay(&buffer[..n]));
}
