//! Laws of the log's definitions, each as a function whose contract it is. None of them does anything.

ghost use Rattle.sqlx_pool_marks.specs.Laws.{SafeLogsLendOnce, OrderedLogsKeepTheLine, SafeLogsKeepTheMaximum, ViewsTellTheFuture, OneViewSaysTheSame};
ghost use Rattle.sqlx_pool_marks.specs.Cut.{CutsKeepTheView};

/// In a safe log no connection has two owners.
pub fn safe_logs_lend_once()
    ensures { SafeLogsLendOnce }
{}

/// In a log in order a ticket leaves the line only where fewer waiting tickets precede it than permits are free.
pub fn ordered_logs_keep_the_line()
    ensures { OrderedLogsKeepTheLine }
{}

/// A pool with a safe log has no more connections than its maximum, where its start had none.
pub fn safe_logs_keep_the_maximum()
    ensures { SafeLogsKeepTheMaximum }
{}

/// Two logs of one view may be followed by the same marks, and their views are one again.
pub fn views_tell_the_future()
    ensures { ViewsTellTheFuture }
{}

/// Two logs of one view say the same of a pool: a pool that stands for the one has what the other says.
pub fn one_view_says_the_same()
    ensures { OneViewSaysTheSame }
{}

/// A log that is cut has the view that it had: the same marks may follow it.
pub fn cuts_keep_the_view()
    ensures { CutsKeepTheView }
{}
