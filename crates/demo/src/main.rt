// Shows the main job on samples that it carries: identifiers taken apart and built, engine hours reassembled from a bus where things go wrong, and one
// gateway's answers to two displays at once.
#![tactic(auto)]

mod displays;
mod engine;
mod gateway;
mod identifiers;
mod reassembly;

use std::io::{self, BufWriter, Write};

fn main(rt: HostRuntime) -> io::Result<()> {
    let mut out = BufWriter::new(rt.alloc(), io::writer(&rt))?;
    identifiers::show(&mut out)?;
    reassembly::show(&mut out)?;
    displays::show(&mut out)?;
    out.flush()
}
