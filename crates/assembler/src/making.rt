// Making a pool.
ghost use Rattle.std.specs.Prelude.{◌≡◌};
ghost use Rattle.assembler.specs.Making.{fresh_pool, fresh_pool_in, MakesPool, MakesPoolIn, MakesPoolOf};

use crate::{DEFAULT_SESSIONS, ImpossiblePool, POOL_BYTES, Pool};
use session::{Mode, POOL_LIMIT, PoolKind, fresh_head};

fn fresh_pool(kind: PoolKind, mode: Mode, size: usize) -> Pool
    ensures { result ≡ fresh_pool_in kind mode size }
{
    Pool {
        kind,
        mode,
        size,
        heads: [fresh_head(); POOL_LIMIT],
        bytes: [0; POOL_BYTES],
    }
}

impl Pool {
    // A fresh pool, as the original; above the limit, refusal 1 and one without sessions.
    pub fn new(size: usize) -> Result<Pool, ImpossiblePool>
        ensures { MakesPool size result }
    {
        Pool::with_mode(size, Mode::AsOriginal)
    }

    // The same in the mode that is chosen here.
    pub fn with_mode(size: usize, mode: Mode) -> Result<Pool, ImpossiblePool>
        ensures { MakesPoolIn mode size result }
    {
        Pool::with_kind(size, mode, PoolKind::Original)
    }

    // The same of the kind that is chosen here.
    pub fn with_kind(size: usize, mode: Mode, kind: PoolKind) -> Result<Pool, ImpossiblePool>
        ensures { MakesPoolOf kind mode size result }
    {
        if POOL_LIMIT < size {
            let pool = fresh_pool(kind, mode, 0);
            Err(ImpossiblePool { pool })
        } else {
            Ok(fresh_pool(kind, mode, size))
        }
    }

    pub fn default() -> Pool
        ensures { result ≡ fresh_pool 4 }
    {
        fresh_pool(PoolKind::Original, Mode::AsOriginal, DEFAULT_SESSIONS)
    }
}
