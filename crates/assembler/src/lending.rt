// The call with the counters lent.
ghost use Rattle.assembler.specs.Promises.{entered, ProcessesHeard};

use crate::arrivals::Arrive;
use crate::receiving::hear;
use crate::{Pool, Processed};
use session::Counters;

// Process a CAN frame that may belong to a Fast Packet session. `pgns` is the list of Fast Packet PGNs; a frame with any other PGN is NotListed.
pub fn process_frame<A: Arrive>(
    mut pool: Pool,
    counters: &mut Counters,
    pgns: &[u32],
    arrival: A,
) -> Processed
    ensures { ProcessesHeard pgns.now (entered A.ENTRY pool (A.hears arrival)) pool counters.old result counters.new }
{
    let told = hear(&mut pool, counters, pgns, arrival);
    let payload = told.payload;
    Processed {
        kind: told.kind,
        payload,
        length: told.length,
        pool,
    }
}
