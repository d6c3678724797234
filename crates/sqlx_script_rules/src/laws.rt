//! Laws of the script's definitions, each as a function whose contract it is. None of them does anything.

ghost use Rattle.sqlx_script_rules.specs.Laws.{StopsWaitingInTurn, ScriptsLendOnce, ScriptsLendAtRest, ScriptsRestUnowned, ScriptsKeepTheLine, ScriptsKeepTheMaximum, ScriptsHoldTheHeadline};

/// A waiting ticket polled in time in an open pool stops waiting exactly when fewer waiting tickets precede it
/// than permits are free.
pub fn stops_waiting_in_turn()
    ensures { StopsWaitingInTurn }
{}

/// Whatever the events of a script, with the answers for replies, no connection has two owners.
pub fn no_two_owners()
    ensures { ScriptsLendOnce }
{}

/// Whatever the events of a script, with the answers for replies, each loan finds its connection with no open level:
/// none is lent mid-transaction.
pub fn lends_at_rest()
    ensures { ScriptsLendAtRest }
{}

/// Whatever the events of a script, with the answers for replies, a connection without an owner has no open level:
/// no half-finished transaction reaches the next user.
pub fn rests_unowned()
    ensures { ScriptsRestUnowned }
{}

/// Whatever the events of a script, with the answers for replies, a ticket leaves the line only where fewer waiting
/// tickets precede it than permits are free.
pub fn in_turn()
    ensures { ScriptsKeepTheLine }
{}

/// Whatever the events of a script, with the answers for replies, after each event the pool has no more connections
/// than its maximum.
pub fn within_maximum()
    ensures { ScriptsKeepTheMaximum }
{}

/// Whatever the events of a script, with the answers for replies, the whole headline holds.
pub fn holds_headline()
    ensures { ScriptsHoldTheHeadline }
{}
