// Strict reassembly accepts exactly the splitter's frames: theorems about the definitions of `splitter` and `oracle`. No code.
#![tactic(auto)]

pub const NONE: usize = 0;
