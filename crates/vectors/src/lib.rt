// The recorded vectors as text: what they begin with, and what is left after it.
#![tactic(auto)]

ghost use Rattle.std.specs.Prelude.{◌≡◌, ◌≤◌, ◌<◌, false, length, take, drop, IsTrue, ◌↔◌, OnSome, SomeIff};
ghost use Rattle.vectors.specs.Vectors.{begins, after, line_length, end_length, comments_length};
ghost use Rattle.vectors.specs.Vectors.{digit_of, byte_of, ReadsNumber, ReadsBytes};

use limits::WORK;

// What is left of the vectors.
#[derive(Clone, Copy, Debug)]
pub struct Cursor<'a> {
    pub text: &'a [u8],
}

impl<'a> Cursor<'a> {
    // Whether the text begins with the bytes s.
    #[tactic(auto, unfolding(crate::specs::Vectors::begins))]
    pub fn begins(&self, s: &[u8]) -> bool
        ensures value { result ≡ begins s.now self.now.text.now }
        ensures within { IsTrue result → length s.now ≤ length self.now.text.now }
    {
        self.text.starts_with(s)
    }

    // Whether no text is left.
    pub fn is_empty(&self) -> bool
        ensures { IsTrue result ↔ (length self.now.text.now ≡ 0) }
    {
        self.text.is_empty()
    }

    // Goes past s where the text begins with it, and otherwise to the end, where no text begins.
    pub fn skip(&mut self, s: &[u8])
        ensures { self.new.text.now ≡ after s.now self.old.text.now }
    {
        self.text = if self.begins(s) {
            &self.text[s.len()..]
        } else {
            &[]
        };
    }

    // Goes past the first line.
    #[tactic(auto, using(crate::proofs::Lines::line_shorter))]
    fn skip_line(&mut self)
        ensures rest { self.new.text.now ≡ drop (line_length self.old.text.now) self.old.text.now }
        ensures shorter { 0 < length self.old.text.now → length self.new.text.now < length self.old.text.now }
    {
        self.text = &self.text[line_length(self.text)..];
    }

    // Goes past the next line `end`.
    #[tactic(auto, using(crate::proofs::Lines::line_is_end, crate::proofs::Lines::line_passed, crate::proofs::Lines::end_shorter))]
    pub fn skip_vector(&mut self)
        ensures shorter { 0 < length self.old.text.now → length self.new.text.now < length self.old.text.now }
        ensures rest { self.new.text.now ≡ drop (end_length false self.old.text.now) self.old.text.now }
    {
        while !self.text.is_empty() {
            let is_end = self.begins(b"end\n");
            self.skip_line();
            if is_end {
                return;
            }
        }
    }

    // Goes past the comment lines that the text begins with.
    #[tactic(auto, using(crate::proofs::Lines::no_comment, crate::proofs::Lines::comment_passed))]
    pub fn skip_comments(&mut self)
        ensures { self.new.text.now ≡ drop (comments_length false self.old.text.now) self.old.text.now }
    {
        while self.begins(b"#") {
            self.skip_line();
        }
    }

    // Reads bytes of two hexadecimal digits each into the file, as many as are there and have room, and answers how many.
    pub fn read_bytes(&mut self, file: &mut [u8]) -> usize
        ensures read { ReadsBytes self.old.text.now file.old result file.new self.new.text.now }
        ensures within { (result ≤ length file.new) × (result ≡ length (take result file.new)) }
    {
        for (n, byte) in file.iter_mut().enumerate() {
            let Some(b) = byte_of(self.text) else {
                return n;
            };
            *byte = b;
            self.text = &self.text[2..];
        }
        file.len()
    }

    // Reads a number written in decimal; where it is over 16,384, not every digit is read. Not by parse, which takes a whole text and
    // refuses a long one.
    pub fn read_number(&mut self) -> usize
        ensures { ReadsNumber self.old.text.now result self.new.text.now }
    {
        let mut n = 0;
        while let [b, ..] = self.text {
            if !b.is_ascii_digit() || n > WORK {
                return n;
            }
            n = n * 10 + usize::from(*b - b'0');
            self.text = &self.text[1..];
        }
        n
    }
}

// The length of a text's first line, with its newline.
fn line_length(text: &[u8]) -> usize
    ensures value { result ≡ line_length text.now }
    ensures within { result ≤ length text.now }
{
    match text.iter().position(|&b| b == b'\n') {
        Some(i) => i + 1,
        None => text.len(),
    }
}

// The value of a hexadecimal digit. Not by to_digit, which takes capitals too.
fn digit(b: u8) -> Option<u8>
    ensures { SomeIff result (digit_of b < 16) (digit_of b) }
{
    match b {
        b'0'..=b'9' => Some(b - b'0'),
        b'a'..=b'f' => Some(b - b'a' + 10),
        _ => None,
    }
}

// The byte that a text begins with, in two hexadecimal digits.
#[tactic(auto, using(crate::proofs::Written::byte_written))]
fn byte_of(text: &[u8]) -> Option<u8>
    ensures value { SomeIff result (byte_of text.now < 256) (byte_of text.now) }
    ensures within { OnSome result (2 ≤ length text.now) }
{
    let [high, low, ..] = text else {
        return None;
    };
    Some(digit(*high)? * 16 + digit(*low)?)
}
