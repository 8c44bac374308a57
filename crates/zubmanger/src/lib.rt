// The call for C and Rust: the answer as three numbers.
#![tactic(auto)]

ghost use Rattle.zubmanger.specs.Call.{Called, HasNumbers};

use builder::Counts;
use refusal::Refusal;

// Three numbers and no Result (C interface): 0 and the counts of operations and temporaries, or a refusal's number and two zeros.
#[repr(C)]
#[derive(Clone, Copy, PartialEq, Eq, Debug)]
pub struct Numbers {
    pub number: u32,
    pub ops: u32,
    pub temps: u32,
}

impl From<Result<Counts, Refusal>> for Numbers {
    ghost from_gives = { λ r n. HasNumbers r n };

    fn from(answer: Result<Counts, Refusal>) -> Numbers {
        match answer {
            Ok(Counts { ops, temps }) => Numbers {
                number: 0,
                ops,
                temps,
            },
            Err(refusal) => Numbers {
                number: u32::from(refusal),
                ops: 0,
                temps: 0,
            },
        }
    }
}

#[unsafe(no_mangle)]
pub extern "C" fn zubmanger_compile(file: &[u8], work: &mut [u32], out: &mut [u32]) -> Numbers
    ensures { Called file.now work.old work.new out.old out.new result }
{
    Numbers::from(builder::compile_mir(file, work, out))
}
