//! A connection that is borrowed, or one of a pool.

ghost use Rattle.std.specs.Prelude.{◌≡◌};

use crate::PoolConnection;
use sqlx_traits::Database;
use sqlx_tx::Hold;

/// A connection that is borrowed, or one of a pool.
pub enum MaybePoolConnectionOf<'c, C, P> {
    /// It is borrowed.
    Connection(&'c mut C),
    /// It is a pool's.
    PoolConnection(P),
}

/// A connection of a database that is borrowed, or one of a pool.
pub type MaybePoolConnection<'c, DB, H, L> = MaybePoolConnectionOf<
    'c,
    <DB as Database>::Connection,
    PoolConnection<DB, H, L>,
>;

impl<'c, DB: Database, P: Hold<DB>> Hold<DB> for MaybePoolConnectionOf<'c, DB::Connection, P> {
    ghost use Rattle.sqlx_pool.specs.Maybe.{held_of, holding_of, puts-of, keeps-of, again-of};

    ghost held = { λ holder. held_of P.held holder };

    ghost holding = { λ holder conn. holding_of P.holding holder conn };

    ghost puts = { λ holder conn. puts-of P.held P.holding P.puts holder conn };

    ghost keeps = { λ holder. keeps-of P.held P.holding P.keeps holder };

    ghost again = { λ holder first second. again-of P.holding P.again holder first second };

    fn conn(&self) -> &DB::Connection {
        match self {
            MaybePoolConnectionOf::Connection(conn) => &**conn,
            MaybePoolConnectionOf::PoolConnection(conn) => conn.conn(),
        }
    }

    fn conn_mut(&mut self) -> &mut DB::Connection {
        match self {
            MaybePoolConnectionOf::Connection(conn) => &mut **conn,
            MaybePoolConnectionOf::PoolConnection(conn) => conn.conn_mut(),
        }
    }
}
