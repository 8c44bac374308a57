// The values of a sheet's table, compared with 1 and −1 by their bits.
#![tactic(auto)]

ghost use Rattle.std.specs.Prelude.{◌≡◌, ◌+◌, ◌<◌, length};
ghost use Rattle.tidying.specs.Units.{number64 as number_at, is_unit};
ghost use Rattle.values.specs.Signs.{is_negative, pattern_of};

// The one pattern that is equal to 1, and the one that is equal to −1.
const ONE: u64 = f64::to_bits(1.0);

const MINUS_ONE: u64 = f64::to_bits(-1.0);

// A value that a rule asks for.
#[derive(Clone, Copy, PartialEq, Eq, Debug)]
pub enum Unit {
    One,
    MinusOne,
}

impl Unit {
    fn bits(self) -> u64
        ensures { result ≡ pattern_of (is_negative self) }
    {
        match self {
            Unit::One => ONE,
            Unit::MinusOne => MINUS_ONE,
        }
    }
}

// One for this width, as header has number16: from_le_bytes is each type's own, and no trait's.
fn number64(s: &[u8], at: usize) -> u64
    requires { at + 7 < length s.now }
    ensures { result ≡ number_at s.now at }
{
    u64::from_le_bytes([
        s[at],
        s[at + 1],
        s[at + 2],
        s[at + 3],
        s[at + 4],
        s[at + 5],
        s[at + 6],
        s[at + 7],
    ])
}

// Is constant k the unit? Past the table none is.
pub fn is_unit(values: &[u8], unit: Unit, k: u32) -> bool
    ensures { result ≡ is_unit (is_negative unit) values.now k }
{
    let at = 8 * (k as usize);
    if values.len() <= at + 7 {
        return false;
    }
    number64(values, at) == unit.bits()
}
