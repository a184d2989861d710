// What one walk over a pool finds: values written from document 01's steps 1, 3 and 4, and not from what the walk gave. That 32 stands for none, and that nothing
// is looked at in a pool that is too large, is what `Pool::found` says.
use crate::Pool;
use session::{Found, Head, Heard, fresh_head};

// Engine hours of source 35, sequence 1, announced with 26 bytes; the first frame was heard at `last_seen_ms`.
fn opened(last_seen_ms: u64) -> Head {
    Head {
        in_progress: true,
        source_address: 35,
        sequence_id: 1,
        last_frame_index: 0,
        pgn: 127489,
        part: 0,
        expected_size: 26,
        current_size: 6,
        last_seen_ms,
    }
}

// An idle slot that keeps its last source.
fn idle(source_address: u8) -> Head {
    Head {
        source_address,
        ..fresh_head()
    }
}

// The second frame of such a message.
fn second(now_ms: u64, source_address: u8) -> Heard {
    Heard {
        now_ms,
        pgn: 127489,
        source_address,
        part: 0,
        data: [0x21, 7, 8, 9, 10, 11, 12, 13],
        length: 8,
    }
}

// Four slots: idle of another source, two with the key and 500 ms between them, idle of the source.
fn four_slots() -> Pool {
    let mut pool = Pool::default();
    pool.heads[0] = idle(9);
    pool.heads[1] = opened(1000);
    pool.heads[2] = opened(1500);
    pool.heads[3] = idle(35);
    pool
}

#[test]
fn finds_the_first_of_each(rt: HostRuntime) {
    let pool = four_slots();
    // 500 ms after the first: it is live, so that the first free slot of the source is the idle one
    let early = Found {
        bad: false,
        key: 1,
        live: 1,
        own: 3,
        free: 0,
    };
    assert_eq!(rt; pool.found(second(1500, 35)), early);
    // a millisecond later it is silent over 500, has the key still, and is free
    let late = Found {
        live: 2,
        own: 1,
        ..early
    };
    assert_eq!(rt; pool.found(second(1501, 35)), late);
    // of another source only the first free slot: 32 stands for none
    let other = Found {
        key: 32,
        live: 32,
        own: 32,
        ..early
    };
    assert_eq!(rt; pool.found(second(1500, 36)), other);
}

#[test]
fn finds_nothing_past_the_size_or_the_limit(rt: HostRuntime) {
    let mut pool = four_slots();
    let nothing = Found {
        bad: false,
        key: 32,
        live: 32,
        own: 32,
        free: 32,
    };
    pool.size = 0;
    assert_eq!(rt; pool.found(second(1500, 35)), nothing);
    // sequence 8 makes the pool impossible where the slot is within its size
    pool.heads[2].sequence_id = 8;
    pool.size = 2;
    assert_eq!(rt; pool.found(second(1500, 35)).bad, false);
    pool.size = 3;
    assert_eq!(rt; pool.found(second(1500, 35)).bad, true);
    pool.size = 33;
    let too_large = Found {
        bad: true,
        ..nothing
    };
    assert_eq!(rt; pool.found(second(1500, 35)), too_large);
}
