//! What is made of the rows of a query: a function, or one after another.
ghost use Rattle.std.specs.Prelude.{◌≡◌, Ok, Result};
ghost use Rattle.sqlx_text.specs.declared.error.Error.{Error};

use sqlx_text::Error;
use std::marker::PhantomData;

/// What is made of rows, or of what another mapper made of them.
pub trait Mapper<R>: Sized + Drop {
    type Out: Drop;

    /// What a call may answer, and what the mapper is after it.
    ghost maps: { Self → R → Result Self.Out Error → Self → Type 0 };

    /// The mapper may be called, and again after each call.
    ghost ready: { Self → Type 0 };

    /// What it makes of a row, or a refusal.
    fn call(&mut self, row: R) -> Result<Self::Out, Error>
        requires { ready self.old }
        ensures answer { maps self.old row result self.new }
        ensures again { ready self.new };
}

/// A function of a row.
#[derive(Drop)]
pub struct Each<F> {
    pub f: F,
}

/// A function of a row that may refuse it.
#[derive(Drop)]
pub struct TryEach<F> {
    pub f: F,
}

/// A mapper, and another of what it makes.
#[derive(Drop)]
pub struct Mapped<M, G> {
    pub first: M,
    pub then: G,
}

impl<R, O: Drop, F: FnMut(R) -> O + Drop> Mapper<R> for Each<F> {
    type Out = O;

    ghost maps = { λ before row answer now. (x : O) × (answer ≡ Ok x) × F.step before.f row x now.f };

    ghost ready = { λ each. F.IsAlwaysCallable each.f };

    fn call(&mut self, row: R) -> Result<O, Error> {
        Ok((self.f)(row))
    }
}

impl<R, O: Drop, F: FnMut(R) -> Result<O, Error> + Drop> Mapper<R> for TryEach<F> {
    type Out = O;

    ghost maps = { λ before row answer now. F.step before.f row answer now.f };

    ghost ready = { λ each. F.IsAlwaysCallable each.f };

    fn call(&mut self, row: R) -> Result<O, Error> {
        (self.f)(row)
    }
}

impl<R, M: Mapper<R>, G: Mapper<M::Out>> Mapper<R> for Mapped<M, G> {
    type Out = G::Out;

    ghost use Rattle.sqlx_query_rows.specs.Mapping.{Follows};

    ghost maps = { λ before row answer now. (middle : Result M.Out Error) × M.maps before.first row middle now.first
        × Follows G.maps before.then middle answer now.then };

    ghost ready = { λ mapped. M.ready mapped.first × G.ready mapped.then };

    fn call(&mut self, row: R) -> Result<G::Out, Error> {
        match self.first.call(row) {
            Ok(middle) => self.then.call(middle),
            Err(error) => Err(error),
        }
    }
}
