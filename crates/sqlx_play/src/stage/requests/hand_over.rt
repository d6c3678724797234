//! A connection comes to a client.
ghost use Rattle.std.specs.Prelude.{◌≡◌, [], ◌∷◌, ◌++◌, IfOk, OnOk};

use crate::stage::loans::lent::LentList;
use sqlx_play_acts::ClientLink;
use sqlx_pool_core::Lent;
use sqlx_script::Reply;
use sqlx_text::OutOfMemory;

/// Puts a connection last among those that clients own.
pub fn hand_over(owned: &mut LentList, lent: Lent<ClientLink>) -> Result<Reply, OutOfMemory>
    ensures answer { IfOk result (λ reply. reply ≡ Reply.Ready lent.id) }
    ensures owned { OnOk result (owned.new.items ≡ owned.old.items ++ lent ∷ []) }
{
    let connection = lent.id;
    owned.push(lent)?;
    Ok(Reply::Ready(connection))
}
