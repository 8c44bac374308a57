// Numbers that no code has. They have a file of their own, since a type with a ghost field imports all that its file does, and lib
// imports definitions over these types.
ghost use Rattle.std.specs.Prelude.{◌≡◌, false};
ghost use Rattle.operation.specs.Codes.{is_unary, is_binary};

// A number that no unary code has, and one that no binary code has.
#[derive(Clone, Copy, PartialEq, Eq, Debug)]
pub struct OtherUnary {
    pub number: u8,
    ghost unknown: { is_unary number ≡ false },
}

#[derive(Clone, Copy, PartialEq, Eq, Debug)]
pub struct OtherBinary {
    pub number: u8,
    ghost unknown: { is_binary number ≡ false },
}
