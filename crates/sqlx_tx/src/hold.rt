//! Who holds a connection: a reference to it, a transaction, or a type of your own.
ghost use Rattle.std.specs.Prelude.{◌≡◌};
ghost use Rattle.std.specs.Borrow.{Lends, sem};

use sqlx_traits::Database;

/// Who holds a connection. It lends the connection, and is then the same holder with what the connection became.
pub trait Hold<DB: Database>: Sized {
    /// The connection that is held.
    ghost held: { Self → DB.Connection };

    /// The same holder, with another connection.
    ghost holding: { Self → DB.Connection → Self };

    /// The connection, to read.
    fn conn(&self) -> &DB::Connection
        ensures { result.now ≡ held self.now };

    /// The connection, to work on.
    fn conn_mut(&mut self) -> &mut DB::Connection
        ensures* lends { sem 𝓛 (Lends Self.row DB.Connection.row self.entry result (holding self.old)) }
        ensures value { result.now ≡ held self.old };

    /// The connection, to read. In sqlx: `as_ref` and `Deref` of `Transaction`.
    final fn as_ref(&self) -> &DB::Connection
        ensures { result.now ≡ held self.now }
    {
        self.conn()
    }

    /// The connection, to work on. In sqlx: `as_mut` and `DerefMut` of `Transaction`.
    final fn as_mut(&mut self) -> &mut DB::Connection
        ensures* lends { sem 𝓛 (Lends Self.row DB.Connection.row self.entry result (holding self.old)) }
        ensures value { result.now ≡ held self.old }
    {
        self.conn_mut()
    }

    /// The connection that is put in is the one that is held.
    ghost puts: { (holder : Self) (conn : DB.Connection) → held (holding holder conn) ≡ conn };

    /// Holding what is held changes nothing.
    ghost keeps: { (holder : Self) → holding holder (held holder) ≡ holder };

    /// The connection that is put in last counts.
    ghost again: { (holder : Self) (first second : DB.Connection) → holding (holding holder first) second ≡ holding holder second };
}

/// A connection that is borrowed.
pub struct Borrowed<'c, DB: Database>(pub &'c mut DB::Connection);

impl<'c, DB: Database> Hold<DB> for Borrowed<'c, DB> {
    ghost use Rattle.std.specs.Prelude.{refl};
    ghost use Rattle.sqlx_tx.specs.Lending.{with_value};

    ghost held = { λ holder. holder.0.now };

    ghost holding = { λ holder conn. record holder { 0 = with_value holder.0 conn } };

    ghost puts = { λ _ _. refl };

    ghost keeps = { λ _. refl };

    ghost again = { λ _ _ _. refl };

    fn conn(&self) -> &DB::Connection {
        &*self.0
    }

    fn conn_mut(&mut self) -> &mut DB::Connection {
        &mut *self.0
    }
}
