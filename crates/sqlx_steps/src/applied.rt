//! How far an apply came.
ghost use Rattle.std.specs.Prelude.{◌≡◌};
ghost use Rattle.sqlx_steps.specs.Applies.{version_left, Told};

use sqlx_steps_rules::Reply;
use sqlx_text::OutOfMemory as NoMemory;

/// How far an apply came: the version that it left.
#[derive(Clone, Copy)]
pub enum Applied {
    /// All steps that were asked for are applied.
    Done(u64),
    /// A text was refused.
    Stopped(u64),
    /// Memory was wanting.
    OutOfMemory(u64),
}

impl Applied {
    /// The version that it left.
    pub fn version(&self) -> u64
        ensures { result ≡ version_left self.now }
    {
        match *self {
            Applied::Done(version) | Applied::Stopped(version) | Applied::OutOfMemory(version) => {
                version
            }
        }
    }

    // The reply to the event.
    pub(crate) fn reply(&self) -> Result<Reply, NoMemory>
        ensures { Told self.now result }
    {
        match *self {
            Applied::Done(version) => Ok(Reply::Applied(version)),
            Applied::Stopped(version) => Ok(Reply::Stopped(version)),
            Applied::OutOfMemory(_) => Err(NoMemory),
        }
    }
}
