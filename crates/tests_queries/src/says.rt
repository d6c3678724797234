//! What stops a test.

use std::fmt::Debug;
use std::process::Abort;
use std::test::*;

/// Stops the test where another text was told, or none could be.
pub fn says<R: Abort, F: Debug + Drop>(
    rt: &R,
    told: Result<String, F>,
    want: &str,
) -> Result<(), Fail> {
    assert_eq!(rt; told?.as_str(), want);
    Ok(())
}
