//! A connection over a backend, which does what it is asked.
ghost use Rattle.std.specs.Prelude.{◌≡◌};

use crate::{Any, AnyConnectionBackend};
use sqlx_text::{Depth, Error};
use sqlx_traits::{Connection, Faults};

/// A connection over a backend.
#[derive(Drop)]
pub struct AnyConnection<B> {
    pub(crate) backend: B,
}

impl<B> AnyConnection<B> {
    /// A connection over the backend.
    pub fn new(backend: B) -> Self
        ensures { result.backend ≡ backend }
    {
        AnyConnection { backend }
    }

    /// The backend.
    pub fn backend(&self) -> &B
        ensures { result.now ≡ self.now.backend }
    {
        &self.backend
    }

    /// The backend, where the connection isn't needed any more.
    pub fn into_backend(self) -> B
        ensures { result ≡ self.backend }
    {
        let AnyConnection { backend } = self;
        backend
    }
}

impl<B: AnyConnectionBackend> AnyConnection<B> {
    /// The name of the backend's driver.
    pub fn backend_name(&self) -> &str
        ensures { result.now ≡ B.called self.now.backend }
    {
        self.backend.name()
    }
}

impl<B: AnyConnectionBackend> Depth for AnyConnection<B> {
    ghost levels = { λ conn. B.levels conn.backend };

    fn depth(&self) -> usize {
        self.backend.get_transaction_depth()
    }
}

impl<B: AnyConnectionBackend> Faults for AnyConnection<B> {
    ghost faults = { λ conn. B.faults conn.backend };
}

impl<B: AnyConnectionBackend> Connection<Any<B>> for AnyConnection<B> {
    ghost closes = { λ conn. B.closes conn.backend };

    ghost cached = { λ conn. B.cached conn.backend };

    ghost unflushed = { λ conn. B.unflushed conn.backend };

    ghost does = { λ call conn outcome after. B.does call conn.backend outcome after.backend };

    ghost ends = { λ closing conn outcome. B.ends closing conn.backend outcome };

    fn close(self) -> Result<(), Error> {
        let AnyConnection { backend } = self;
        backend.close()
    }

    fn close_hard(self) -> Result<(), Error> {
        let AnyConnection { backend } = self;
        backend.close_hard()
    }

    fn ping(&mut self) -> Result<(), Error> {
        self.backend.ping()
    }

    fn cached_statements_size(&self) -> usize {
        self.backend.cached_statements_size()
    }

    fn clear_cached_statements(&mut self) -> Result<(), Error> {
        self.backend.clear_cached_statements()
    }

    fn shrink_buffers(&mut self) {
        self.backend.shrink_buffers()
    }

    fn flush(&mut self) -> Result<(), Error> {
        self.backend.flush()
    }

    fn should_flush(&self) -> bool {
        self.backend.should_flush()
    }
}
