//! A mark of the log, in numbers.

ghost use Rattle.std.specs.Prelude.{◌≡◌, ◌<◌};
ghost use Rattle.zangipuk_c.specs.MarkReplies.{marked, mark_reply};

use crate::reply::Reply;
use sqlx_pool_core::Mark;

// The kind of the first mark; the others follow it, as `Mark` has them.
const ASKED: u32 = 20;

// A reply of this kind, of this ticket or connection, client and moment.
fn marked(at: u32, id: u64, client: u32, moment: u64) -> Reply
    requires { at < 12 }
    ensures { result ≡ marked at id client moment }
{
    Reply {
        kind: ASKED + at,
        id,
        raw: u64::from(client),
        created: 0,
        when: moment,
        edge: 0,
    }
}

/// A mark. A deadline that is later than any moment is the largest number.
pub fn mark(mark: Mark) -> Reply
    ensures { result ≡ mark_reply mark }
{
    match mark {
        Mark::Asked {
            ticket,
            client,
            deadline,
        } => {
            let deadline = match u64::try_from(deadline) {
                Ok(deadline) => deadline,
                Err(_) => u64::MAX,
            };
            marked(0, ticket, client, deadline)
        }
        Mark::Left { ticket } => marked(1, ticket, 0, 0),
        Mark::Taken { conn } => marked(2, conn, 0, 0),
        Mark::Reaped { conn } => marked(3, conn, 0, 0),
        Mark::Opened { conn, moment } => marked(4, conn, 0, moment),
        Mark::Lent { client, conn } => marked(5, conn, client, 0),
        Mark::Kept { conn, moment } => marked(6, conn, 0, moment),
        Mark::Closed { conn } => marked(7, conn, 0, 0),
        Mark::Detached { conn } => marked(8, conn, 0, 0),
        Mark::Leaked { conn } => marked(9, conn, 0, 0),
        Mark::Ended { ticket } => marked(10, ticket, 0, 0),
        Mark::Shut => marked(11, 0, 0, 0),
    }
}
