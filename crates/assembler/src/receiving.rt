// The receive call, in place. It is straight-line code with one walk: a plan that changes nothing writes the same head back, stores and delivers no bytes.
ghost use Rattle.std.specs.Prelude.{◌≡◌};
ghost use Rattle.session.specs.inner.Search.{found_in};
ghost use Rattle.assembler.specs.Slots.{impossible};
ghost use Rattle.assembler.specs.View.{slots_of, receive_of, zeros};
ghost use Rattle.base.specs.Answer.{gives};
ghost use Rattle.assembler.specs.Promises.{rules_of, entered, answer_to, ReceivesHeard};
ghost use Rattle.assembler.specs.declared.Received.{Received};

use crate::arrivals::Arrive;
use crate::bytes::copy;
use crate::{Pool, Received};
use can_id::CanIdReadError;
use fast_packet::{MAX_FAST_PACKET_PAYLOAD, is_listed};
use session::{
    Counters, FIRST_DATA, Found, Heard, Kind, POOL_LIMIT, PoolKind, count, decide, look,
    nothing_found, place_for, within_limit,
};

impl Pool {
    // What one walk over the heads finds, from the last to the first. Of a pool that is too large nothing is looked at. By document 01's steps it is `first_slots`
    // of the pool (`walk_finds` in proofs/Crowded).
    // Inlined, since what asks whether a pool is impossible needs none of the places: by a call, a batch of one frame on a pool of 32 takes a fifth more time.
    #[inline(always)]
    #[tactic(auto, using(crate::proofs::Crowded::none_looked_at))]
    pub fn found(&self, heard: Heard) -> Found
        ensures { result ≡ found_in (rules_of self.now) heard self.now.size self.now.heads }
    {
        if POOL_LIMIT < self.size {
            return nothing_found(true);
        }
        let mut found = nothing_found(false);
        for i in (0..self.size).rev() {
            found = look(self.kind, self.mode, self.heads[i], found, i, heard);
        }
        found
    }

    // Whether it is impossible, by its size and the heads of its slots. A batch asks it once, where the single call's walk sees it at every frame.
    #[tactic(auto, using(crate::proofs::Crowded::bad_is_impossible))]
    pub fn is_impossible(&self) -> bool
        ensures { result ≡ impossible (rules_of self.now) (slots_of self.now) }
    {
        // which frame is looked for makes no difference here
        let any = Heard {
            now_ms: 0,
            pgn: 0,
            source_address: 0,
            part: 0,
            data: [0; 8],
            length: 8,
        };
        self.found(any).bad
    }
}

// What a call answers beside the pool and the counters, which it works on in place.
#[derive(Clone, Copy)]
pub(crate) struct Told {
    pub(crate) kind: Kind,
    pub(crate) payload: [u8; MAX_FAST_PACKET_PAYLOAD],
    pub(crate) length: usize,
}

// One call of a frame as the steps hear it.
fn receive_heard(pool: &mut Pool, counters: &mut Counters, pgns: &[u32], heard: Heard) -> Told
    ensures { ◌≡◌ {A = Received} (record { kind = result.kind; payload = result.payload; length = result.length; pool = pool.new; counters = counters.new })
        (receive_of (rules_of pool.old) pgns.now heard pool.old counters.old) }
{
    let seen = pool.found(heard);
    let listed = is_listed(pgns, heard.pgn);
    let place = place_for(seen, heard);
    let g = within_limit(place);
    let plan = decide(
        pool.mode,
        seen.bad,
        listed,
        place < POOL_LIMIT,
        pool.heads[g],
        heard,
    );
    pool.heads[g] = plan.head;
    let frame = heard.data;
    let start = g * MAX_FAST_PACKET_PAYLOAD;
    copy(
        &mut pool.bytes,
        start + plan.at,
        &frame,
        plan.from,
        plan.count,
    );
    let mut payload = [0; MAX_FAST_PACKET_PAYLOAD];
    copy(&mut payload, 0, &pool.bytes, start, plan.whole);
    copy(&mut payload, 0, &frame, FIRST_DATA, plan.short);
    *counters = count(*counters, plan.mark);
    Told {
        kind: plan.kind,
        payload,
        length: plan.whole + plan.short,
    }
}

// ---- the entries

// A call that is refused at its entry leaves pool and counters as they are.
#[tactic(auto, unfolding(crate::specs::View::zeros))]
fn refused(kind: Kind) -> Told
    ensures { (result.kind ≡ kind) × (result.payload ≡ zeros) × (result.length ≡ 0) }
{
    Told {
        kind,
        payload: [0; MAX_FAST_PACKET_PAYLOAD],
        length: 0,
    }
}

// One call at the entry of a kind; a pool of the other kind is refused there.
fn receive_at(
    entry: PoolKind,
    pool: &mut Pool,
    counters: &mut Counters,
    pgns: &[u32],
    heard: Heard,
) -> Told
    ensures { ◌≡◌ {A = Received} (record { kind = result.kind; payload = result.payload; length = result.length; pool = pool.new; counters = counters.new })
        (answer_to pgns.now (entered entry pool.old (gives heard)) pool.old counters.old) }
{
    if entry != pool.kind {
        return refused(Kind::ImpossiblePool);
    }
    receive_heard(pool, counters, pgns, heard)
}

// One call, on a pool and counters that are lent: what both forms of it do. A frame with a length that lacks a byte which is needed is Rejected, or breaks its
// session.
pub(crate) fn hear<A: Arrive>(
    pool: &mut Pool,
    counters: &mut Counters,
    pgns: &[u32],
    arrival: A,
) -> Told
    ensures { ReceivesHeard pgns.now (entered A.ENTRY pool.old (A.hears arrival)) pool.old counters.old
        (record { kind = result.kind; payload = result.payload; length = result.length; pool = pool.new; counters = counters.new }) }
{
    match arrival.heard() {
        Ok(heard) => receive_at(A::ENTRY, pool, counters, pgns, heard),
        Err(CanIdReadError::TooWide) => refused(Kind::TooWide),
    }
}

// One call, with pool and counters in and out by value.
pub fn receive<A: Arrive>(
    mut pool: Pool,
    mut counters: Counters,
    pgns: &[u32],
    arrival: A,
) -> Received
    ensures { ReceivesHeard pgns.now (entered A.ENTRY pool (A.hears arrival)) pool counters result }
{
    let told = hear(&mut pool, &mut counters, pgns, arrival);
    let payload = told.payload;
    Received {
        kind: told.kind,
        payload,
        length: told.length,
        pool,
        counters,
    }
}
