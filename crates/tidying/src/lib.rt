// Tidying as definitions, in specs/, and the laws about it. The crate's only code is a function that a crate has to have.
#![tactic(auto)]

pub fn nothing() {}
