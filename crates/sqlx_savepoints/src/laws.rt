//! Laws over the definitions alone, each a function whose contract is the law.
ghost use Rattle.sqlx_savepoints.specs.Levels.{LevelsAgree};
ghost use Rattle.sqlx_savepoints.specs.Laws.{StandingTells, BracketsAreLevels, BracketsAreSavepoints, AnswersAgree};

/// The savepoint theorem: begun, committed and rolled back by the ANSI texts at the present depth,
/// savepoints by name see what nested levels see, whatever other connections commit meanwhile.
pub fn savepoints_are_levels()
    ensures { LevelsAgree }
{}

/// What stands of a history, its done things struck out, tells the same depths and the same values
/// as the brackets around each write and how they ended.
pub fn standing_tells()
    ensures { StandingTells }
{}

/// Brackets are nested levels: on stores whose connections have levels without names, changes that
/// may come lead to the depths and the values of brackets.
pub fn brackets_are_levels()
    ensures { BracketsAreLevels }
{}

/// Brackets are savepoints: named savepoints, run on each connection by the ANSI text at its depth,
/// come to the depths and the values of brackets, and the next text is always allowed.
pub fn brackets_are_savepoints()
    ensures { BracketsAreSavepoints }
{}

/// The same for all events, each answered by its one reply, without any premise.
pub fn answers_agree()
    ensures { AnswersAgree }
{}
