//! The levels of a connection over a backend.

use crate::{Any, AnyConnection, AnyConnectionBackend};
use sqlx_text::{Error, SqlStr};
use sqlx_traits::TransactionManager;
use std::alloc::Global;
use std::marker::PhantomData;

/// Opens and ends levels as the backend does.
pub struct AnyTransactionManager<B> {
    backend: PhantomData<B>,
}

impl<B: AnyConnectionBackend> TransactionManager<Any<B>> for AnyTransactionManager<B> {
    ghost does = { λ call conn outcome after. B.does call conn.backend outcome after.backend };

    fn begin(
        alloc: Global,
        conn: &mut AnyConnection<B>,
        statement: Option<SqlStr>,
    ) -> Result<(), Error> {
        conn.backend.begin(alloc, statement)
    }

    fn commit(alloc: Global, conn: &mut AnyConnection<B>) -> Result<(), Error> {
        conn.backend.commit(alloc)
    }

    fn rollback(alloc: Global, conn: &mut AnyConnection<B>) -> Result<(), Error> {
        conn.backend.rollback(alloc)
    }

    fn start_rollback(conn: &mut AnyConnection<B>) {
        conn.backend.start_rollback()
    }

    fn get_transaction_depth(conn: &AnyConnection<B>) -> usize {
        conn.backend.get_transaction_depth()
    }
}
