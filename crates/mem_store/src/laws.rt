//! Laws over the definitions alone, each a function whose contract is the law.
ghost use Rattle.mem_store.specs.Statements.{ReadsBack};
ghost use Rattle.mem_store.specs.UndoBound.{RollbacksUndoFew};

/// The text of each statement that the database holds is read as that statement.
pub fn texts_read_back()
    ensures { ReadsBack }
{}

/// Where every level was begun, committed and rolled back by the ANSI texts at the present depth, a
/// rollback undoes at most the writes that came since its level began.
pub fn rollbacks_undo_few()
    ensures { RollbacksUndoFew }
{}
