// The entries that a program in C or Rust links: each calls the function of its name in `ffi`, and promises what that promises. A name is the whole
// program's, so each begins with hf_; hf_raw_ where a pool or a builder is lent as its arrays, which host/hingefrost.h has as structs.
#![tactic(auto)]

mod batches;
mod bench_entries;
mod frames;
mod ids;
mod pools;
mod short_frames;
