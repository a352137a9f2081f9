ghost use Rattle.std.specs.Prelude.{ℕ, ◌≤◌, List};
ghost use Rattle.server_list.specs.Lists.{Listing};
ghost use Rattle.transport_pool.specs.State.{PoolState};
ghost use Rattle.transport_pool.specs.Steps.{empty_pool};
ghost use Rattle.transport_pool.specs.Sound.{RowsAreSound, Holds};
ghost use Rattle.transport_pool.specs.Runs.{after_calls};
ghost use Rattle.transport_pool.specs.Waiting.{KeepsOrder};
ghost use Rattle.transport_pool.specs.declared.entry.PoolCall.{PoolCall};

/// After any calls of a new pool all numbers of idle and lent transports differ, and no more are lent than may be.
pub fn limits_hold()
    ensures { (cap : ℕ) (list : Listing) (calls : List PoolCall) → cap ≤ 32 → RowsAreSound list.rows → Holds (after_calls (empty_pool cap list) calls) }
{}

/// A session that waits stays in order over any calls that don't serve it: it still waits, and before it stand only
/// sessions that stood there, in the same order.
pub fn order_holds()
    ensures { (pool : PoolState) (calls : List PoolCall) (session : ℕ) → KeepsOrder pool calls session }
{}
