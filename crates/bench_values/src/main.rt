// Runs the values of document 01 that are not proved as theorems: one slot at 500 and 501 ms; the names that document 02's No. 2 gives to Ignored, at
// their borders, each by the single call and in a batch; the frames cut short of its No. 5, with a length; the clock that was set back of its No. 10, in both
// modes; the pools of its No. 12, whose key has the destination, beside those of the original's kind; every refusal number that a call can give, with what it
// carries, those of the bench once in separate slices and once over a row of frames; and the identifiers of its No. 4 that are too wide. The file 'stdout' was
// written from the text of both and not from what the program gave, the numbers of the kinds from docs/REFUSALS.md. The builder's frames are in the program builder_values.
#![tactic(auto)]

mod addressed;
mod batching;
mod bench_calls;
mod building;
mod cut_frames;
mod frame_rows;
mod held;
mod receiving;
mod set_back;
mod wide;

use std::io::{self, BufWriter, Write};

fn main(rt: HostRuntime) -> io::Result<()> {
    let mut out = BufWriter::new(rt.alloc(), io::writer(&rt))?;
    receiving::one_slot(&mut out)?;
    receiving::full_pool(&mut out)?;
    receiving::continuations(&mut out)?;
    cut_frames::first_frames(&mut out)?;
    cut_frames::continuations(&mut out)?;
    set_back::continuations(&mut out)?;
    set_back::first_frames(&mut out)?;
    set_back::ends_of_the_clock(&mut out)?;
    set_back::idle_slots(&mut out)?;
    addressed::entries(&mut out)?;
    addressed::two_displays(&mut out)?;
    addressed::broadcasts(&mut out)?;
    addressed::parts(&mut out)?;
    addressed::resets(&mut out)?;
    receiving::pools_made(&mut out)?;
    receiving::refusals(&mut out)?;
    batching::refusals(&mut out)?;
    building::refusals(&mut out)?;
    bench_calls::refusals(&mut out)?;
    bench_calls::transmit_refusals(&mut out)?;
    wide::refusals(&mut out)?;
    out.flush()
}
