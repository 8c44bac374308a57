// The call of crate zubmanger, exported for C and Rust: a crate is built as a library or as a static library, and this is the latter.
#![tactic(auto)]

ghost use Rattle.zubmanger.specs.Call.{Called};

use zubmanger::Numbers;

#[unsafe(no_mangle)]
pub extern "C" fn zubmanger_compile(file: &[u8], work: &mut [u32], out: &mut [u32]) -> Numbers
    ensures { Called file.now work.old work.new out.old out.new result }
{
    zubmanger::zubmanger_compile(file, work, out)
}
