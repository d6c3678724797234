//! What holds of the placeholders of every statement that is built, whatever calls built it.
ghost use Rattle.sqlx_query_drafts.specs.Builder.{AppendsTexts, CountsPlaceholders, NumbersPlaceholders};

use sqlx_traits::{ArgumentList, Database};

/// Each placeholder that a builder writes stands for one argument, the one that has its number.
///
/// Does nothing: its contract is the law. Each call that appends says which pieces a builder gains.
pub fn placeholders_are_arguments<DB: Database>()
    ensures counts { CountsPlaceholders DB.ArgumentBuffer.count DB.ArgumentBuffer.first }
    ensures numbers { NumbersPlaceholders DB.ArgumentBuffer.count DB.ArgumentBuffer.first }
    ensures texts { AppendsTexts DB.ArgumentBuffer.count DB.ArgumentBuffer.first }
{}
