//! Laws over the definitions alone, each a function whose contract is the law.
ghost use Rattle.sqlx_transfer_rules.specs.Laws.{ClosesWithTheOpening, TotalStays};

/// Whatever levels are begun, committed, undone and dropped around the moves between the accounts of a bank, its
/// committed balances add up to what they were at first.
pub fn total_stays()
    ensures { TotalStays }
{}

/// The closing line of every script tells as many opening balances as there are accounts.
pub fn closes_with_the_opening()
    ensures { ClosesWithTheOpening }
{}
