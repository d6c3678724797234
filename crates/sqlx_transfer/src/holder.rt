//! The clients that have a connection.
ghost use Rattle.std.specs.Prelude.{◌≡◌, false, map, IfSome, IfNone};
ghost use Rattle.sqlx_transfer_rules.specs.Transfers.{is_among};
ghost use Rattle.sqlx_transfer.specs.Stands.{HasPlace, client_of};

use sqlx_play_acts::ClientLink;
use sqlx_pool_core::Lent;

/// A client, and the connection that it has.
#[derive(Drop)]
pub struct Holder {
    pub client: u32,
    pub lent: Lent<ClientLink>,
}

/// The place of a client among those that have a connection.
pub fn place_of(holders: &[Holder], client: u32) -> Option<usize>
    ensures some { IfSome result (HasPlace holders.now client) }
    ensures none { IfNone result (is_among client (map client_of holders.now) ≡ false) }
{
    let mut place = 0;
    while place < holders.len() {
        if holders[place].client == client {
            return Some(place);
        }
        place += 1;
    }
    None
}
