// The refusals of a sheet. Definitions and the calls' answers say them by number.
#![tactic(auto)]

ghost use Rattle.refusal.specs.Numbers.{number_of};
ghost use Rattle.refusal.specs.declared.Refusal.TheVariants.{Bytes};
ghost use Rattle.std.specs.Prelude.{◌≡◌};

use operation::UnknownCode;

// What a sheet is refused for, from 1 on; each number is named once, here.
#[derive(Clone, Copy, PartialEq, Eq, Debug)]
pub enum Refusal {
    // Fewer words of work were lent than any sheet may need.
    Work = 1,
    // The file is too short or too long.
    File,
    // A field of the header is out of its range.
    Header,
    // A pair of offset and length is cut off or out of order, or ends past the file.
    Pairs,
    // A statement's bytes end early, are left over, or name nothing that exists.
    Bytes,
    // A formula is too deep, or a sheet has too many nodes.
    Size,
    // A stack index is that of a temporary.
    Place,
    // Both arguments of a call need all the scratch registers.
    Call,
    // Temporaries go past the last stack index.
    Temporaries,
    // The list has no room in the output.
    Output,
    // The lowest power stands under a modulus.
    Power,
}

impl From<Refusal> for u32 {
    ghost from_gives = { λ r n. n ≡ number_of r };

    fn from(refusal: Refusal) -> u32 {
        refusal as u32
    }
}

// A code that no operation has is one of the bytes that name nothing.
impl From<UnknownCode> for Refusal {
    ghost from_gives = { λ code refusal. refusal ≡ Bytes };

    fn from(_: UnknownCode) -> Refusal {
        Refusal::Bytes
    }
}
