//! A builder that a call was lent, and hands back unless it is refused.
//!
//! What a builder is once its borrow is over is proved of an answer that holds the reference in a struct. So each call that
//! chains has a private sibling that answers with [`Lent`], and hands on what that holds.
ghost use Rattle.sqlx_query.specs.Lending.{HandsBack};

use crate::QueryBuilder;
use sqlx_text::{Fault, OutOfMemory};
use sqlx_traits::Database;

pub(crate) struct Lent<'b, DB: Database>(pub(crate) &'b mut QueryBuilder<DB>);

pub(crate) fn hand_back<'b, DB: Database>(
    answer: Result<Lent<'b, DB>, OutOfMemory>,
) -> Result<&'b mut QueryBuilder<DB>, OutOfMemory>
    ensures { HandsBack (λ lent. lent.0) answer.entry result }
{
    match answer {
        Ok(Lent(builder)) => Ok(builder),
        Err(want) => Err(want),
    }
}

pub(crate) fn hand_back_or_fault<'b, DB: Database>(
    answer: Result<Lent<'b, DB>, Fault>,
) -> Result<&'b mut QueryBuilder<DB>, Fault>
    ensures { HandsBack (λ lent. lent.0) answer.entry result }
{
    match answer {
        Ok(lent) => {
            let Lent(builder) = lent;
            Ok(builder)
        }
        Err(fault) => Err(fault),
    }
}
