ghost use Rattle.lock_table.specs.Laws.{WaitersKeepTheirPlace, ReadyHasNoCause, FirstComeFirstServed, OneCycleIsTold};

/// A waiter keeps its place until its wait is over: nobody comes to stand before it.
pub fn waiters_keep_their_place()
    ensures { WaitersKeepTheirPlace }
{}

/// Who is ready has no cause left, and the oldest such wait is the one that is told.
pub fn ready_has_no_cause()
    ensures { ReadyHasNoCause }
{}

/// A request that conflicts with an earlier waiter waits, but for what the asking session holds.
pub fn first_come_first_served()
    ensures { FirstComeFirstServed }
{}

/// There is one cycle at most that may be told.
pub fn one_cycle_is_told()
    ensures { OneCycleIsTold }
{}
