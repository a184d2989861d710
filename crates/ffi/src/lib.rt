// The entries that `ffi_c` exports to a program in C or Rust: numbers, slices and arrays of numbers. Nothing here but calls and the numbers that stand
// for what C does not have; specs/ says which. A name is the exported one, which is the whole program's, so each begins with hf_; hf_raw_ where a pool or
// a builder is lent as its arrays, which host/hingefrost.h has as structs.
#![tactic(auto)]

pub mod batches;
pub mod bench_entries;
pub mod frames;
pub mod ids;
pub mod pools;
pub mod short_frames;
