// The numbers that stand for what C does not have. The entries are the crate `ffi`'s.
#![tactic(auto)]

mod bench_answers;
mod frames;
mod numbers;
mod pools;

pub use bench_answers::{split_count, split_number, told_checked, told_reassembled};
pub use frames::{
    after_numbers, builder_from, builder_numbers, go_on, iterator_from, lay_made, place_numbers,
    tell_next,
};
pub use numbers::{address_number, answered, destination_from, told_read};
pub use pools::{
    HEAD_NUMBERS, POOL_NUMBERS, counter_numbers, counters_from, leave, leave_made, pool_asked,
    pool_from, put_heads,
};
