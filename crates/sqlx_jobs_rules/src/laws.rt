//! Laws over the answers alone, each a function whose contract is the law.
ghost use Rattle.sqlx_jobs_rules.specs.Laws.{NoTwoHolders, NoneFinishedTwice, AsIfItHadNotCome, MomentsNeverFall};

/// No job has two holders.
pub fn no_two_holders()
    ensures { NoTwoHolders }
{}

/// No job is finished twice.
pub fn none_finished_twice()
    ensures { NoneFinishedTwice }
{}

/// Behind a fault everything is as if its event hadn't come.
pub fn as_if_it_had_not_come()
    ensures { AsIfItHadNotCome }
{}

/// The moments of a script never fall.
pub fn moments_never_fall()
    ensures { MomentsNeverFall }
{}
