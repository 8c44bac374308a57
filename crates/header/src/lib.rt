// A sheet's header, read once and handed on by value.
#![tactic(auto)]

ghost use Rattle.std.specs.Prelude.{◌≡◌, ◌+◌, ◌<◌, ◌≤◌, length};
ghost use Rattle.definitions.specs.Sheet.{number16 as number_at, flag};
ghost use Rattle.header.specs.Settings.{header_of, temporary_of, Indexed};

use symbol::Loc;

// The scratch count, the flags, the step between temporaries, the first one's index, and the statement count.
#[derive(Clone, Copy, PartialEq, Eq, Debug)]
pub struct Header {
    pub scratch: u32,
    pub sharing: bool,
    pub fused: bool,
    pub stable: bool,
    pub step: u32,
    pub first: u32,
    pub count: u32,
}

// Little-endian. A function of this width alone, as values has number64: from_le_bytes is each type's own, and no trait's, so one
// function of both would take it as a parameter, and its callers would spell the width all the same.
pub fn number16(s: &[u8], at: usize) -> u16
    requires { at + 1 < length s.now }
    ensures { result ≡ number_at s.now at }
{
    u16::from_le_bytes([s[at], s[at + 1]])
}

fn has_flag(file: &[u8], bit: u8) -> bool
    requires { (8 ≤ length file.now) × (0 < bit) }
    ensures { result ≡ flag bit file.now }
{
    file[1] / bit % 2 == 1
}

impl Header {
    // The first eight bytes of a file.
    pub fn read(file: &[u8]) -> Self
        requires { 8 ≤ length file.now }
        ensures { result ≡ header_of file.now }
    {
        Header {
            scratch: u32::from(file[0]),
            sharing: has_flag(file, 1),
            fused: has_flag(file, 2),
            stable: has_flag(file, 4),
            step: u32::from(file[2]),
            first: u32::from(number16(file, 6)),
            count: u32::from(number16(file, 4)),
        }
    }

    // Where temporary n is.
    pub fn temporary(self, n: u32) -> Loc
        requires { Indexed self n }
        ensures { result ≡ temporary_of self n }
    {
        Loc::Stack((self.first + self.step * n) as u16)
    }
}
