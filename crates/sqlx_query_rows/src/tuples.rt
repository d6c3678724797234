//! Tuples that are made of a row: the tuple of one member fewer, and then the column behind it.
//! So each member is read of the column at its position, one after another, and the first refusal is the answer.
//! In clauses a tuple of more than twelve members is nested pairs.
ghost use Rattle.std.specs.Prelude.{◌≡◌};
ghost use Rattle.sqlx_query_rows.specs.Tuples.{past, past_four};

use crate::{FromColumn, FromRow};
use sqlx_text::Error;
use sqlx_traits::Database;
use std::alloc::Global;

impl<DB: Database, A: FromColumn<DB>> FromRow<DB> for (A,) {
    ghost use Rattle.sqlx_query_rows.specs.FromRow.{Gives, Then};

    ghost made = { λ row. Then (A.column 0 row) λ a. Gives (record { 0 = a }) };

    fn from_row(alloc: Global, row: &DB::Row) -> Result<Self, Error> {
        match A::from_column(alloc, row, 0) {
            Ok(first) => Ok((first,)),
            Err(refusal) => Err(refusal),
        }
    }
}

// A member behind the others.
fn with_2<A, B>(all: (A,), last: B) -> (A, B)
    ensures { result ≡ (all.0, last) }
{
    (all.0, last)
}

impl<DB: Database, A: FromColumn<DB>, B: FromColumn<DB>> FromRow<DB> for (A, B) {
    ghost use Rattle.sqlx_query_rows.specs.FromRow.{Gives, Then};

    ghost made = { λ row. Then (⟦<(A,) as FromRow<DB>>⟧.made row) λ t. Then (B.column 1 row) λ x.
        Gives (t.0, x) };

    fn from_row(alloc: Global, row: &DB::Row) -> Result<Self, Error> {
        match <(A,) as FromRow<DB>>::from_row(alloc, row) {
            Ok(all) => match B::from_column(alloc, row, 1) {
                Ok(last) => Ok(with_2(all, last)),
                Err(error) => Err(error),
            },
            Err(error) => Err(error),
        }
    }
}

// A member behind the others.
fn with_3<A, B, C>(all: (A, B), last: C) -> (A, B, C)
    ensures { result ≡ (all.0, all.1, last) }
{
    (all.0, all.1, last)
}

impl<DB: Database, A: FromColumn<DB>, B: FromColumn<DB>, C: FromColumn<DB>> FromRow<DB>
    for (A, B, C) {
    ghost use Rattle.sqlx_query_rows.specs.FromRow.{Gives, Then};

    ghost made = { λ row. Then (⟦<(A, B) as FromRow<DB>>⟧.made row) λ t. Then (C.column 2 row) λ x.
        Gives (t.0, t.1, x) };

    fn from_row(alloc: Global, row: &DB::Row) -> Result<Self, Error> {
        match <(A, B) as FromRow<DB>>::from_row(alloc, row) {
            Ok(all) => match C::from_column(alloc, row, 2) {
                Ok(last) => Ok(with_3(all, last)),
                Err(error) => Err(error),
            },
            Err(error) => Err(error),
        }
    }
}

// A member behind the others.
fn with_4<A, B, C, D>(all: (A, B, C), last: D) -> (A, B, C, D)
    ensures { result ≡ (all.0, all.1, all.2, last) }
{
    (all.0, all.1, all.2, last)
}

impl<
    DB: Database,
    A: FromColumn<DB>,
    B: FromColumn<DB>,
    C: FromColumn<DB>,
    D: FromColumn<DB>,
> FromRow<DB> for (A, B, C, D) {
    ghost use Rattle.sqlx_query_rows.specs.FromRow.{Gives, Then};

    ghost made = { λ row. Then (⟦<(A, B, C) as FromRow<DB>>⟧.made row) λ t. Then (D.column 3 row) λ x.
        Gives (t.0, t.1, t.2, x) };

    fn from_row(alloc: Global, row: &DB::Row) -> Result<Self, Error> {
        match <(A, B, C) as FromRow<DB>>::from_row(alloc, row) {
            Ok(all) => match D::from_column(alloc, row, 3) {
                Ok(last) => Ok(with_4(all, last)),
                Err(error) => Err(error),
            },
            Err(error) => Err(error),
        }
    }
}

// A member behind the others.
fn with_5<A, B, C, D, E>(all: (A, B, C, D), last: E) -> (A, B, C, D, E)
    ensures { result ≡ (all.0, all.1, all.2, all.3, last) }
{
    (all.0, all.1, all.2, all.3, last)
}

impl<
    DB: Database,
    A: FromColumn<DB>,
    B: FromColumn<DB>,
    C: FromColumn<DB>,
    D: FromColumn<DB>,
    E: FromColumn<DB>,
> FromRow<DB> for (A, B, C, D, E) {
    ghost use Rattle.sqlx_query_rows.specs.FromRow.{Gives, Then};

    ghost made = { λ row. Then (⟦<(A, B, C, D) as FromRow<DB>>⟧.made row) λ t. Then (E.column 4 row) λ x.
        Gives (t.0, t.1, t.2, t.3, x) };

    fn from_row(alloc: Global, row: &DB::Row) -> Result<Self, Error> {
        match <(A, B, C, D) as FromRow<DB>>::from_row(alloc, row) {
            Ok(all) => match E::from_column(alloc, row, 4) {
                Ok(last) => Ok(with_5(all, last)),
                Err(error) => Err(error),
            },
            Err(error) => Err(error),
        }
    }
}

// A member behind the others.
fn with_6<A, B, C, D, E, F>(all: (A, B, C, D, E), last: F) -> (A, B, C, D, E, F)
    ensures { result ≡ (all.0, all.1, all.2, all.3, all.4, last) }
{
    (all.0, all.1, all.2, all.3, all.4, last)
}

impl<
    DB: Database,
    A: FromColumn<DB>,
    B: FromColumn<DB>,
    C: FromColumn<DB>,
    D: FromColumn<DB>,
    E: FromColumn<DB>,
    F: FromColumn<DB>,
> FromRow<DB> for (A, B, C, D, E, F) {
    ghost use Rattle.sqlx_query_rows.specs.FromRow.{Gives, Then};

    ghost made = { λ row. Then (⟦<(A, B, C, D, E) as FromRow<DB>>⟧.made row) λ t. Then (F.column 5 row) λ x.
        Gives (t.0, t.1, t.2, t.3, t.4, x) };

    fn from_row(alloc: Global, row: &DB::Row) -> Result<Self, Error> {
        match <(A, B, C, D, E) as FromRow<DB>>::from_row(alloc, row) {
            Ok(all) => match F::from_column(alloc, row, 5) {
                Ok(last) => Ok(with_6(all, last)),
                Err(error) => Err(error),
            },
            Err(error) => Err(error),
        }
    }
}

// A member behind the others.
fn with_7<A, B, C, D, E, F, G>(all: (A, B, C, D, E, F), last: G) -> (A, B, C, D, E, F, G)
    ensures { result ≡ (all.0, all.1, all.2, all.3, all.4, all.5, last) }
{
    (all.0, all.1, all.2, all.3, all.4, all.5, last)
}

impl<
    DB: Database,
    A: FromColumn<DB>,
    B: FromColumn<DB>,
    C: FromColumn<DB>,
    D: FromColumn<DB>,
    E: FromColumn<DB>,
    F: FromColumn<DB>,
    G: FromColumn<DB>,
> FromRow<DB> for (A, B, C, D, E, F, G) {
    ghost use Rattle.sqlx_query_rows.specs.FromRow.{Gives, Then};

    ghost made = { λ row. Then (⟦<(A, B, C, D, E, F) as FromRow<DB>>⟧.made row) λ t. Then (G.column 6 row) λ x.
        Gives (t.0, t.1, t.2, t.3, t.4, t.5, x) };

    fn from_row(alloc: Global, row: &DB::Row) -> Result<Self, Error> {
        match <(A, B, C, D, E, F) as FromRow<DB>>::from_row(alloc, row) {
            Ok(all) => match G::from_column(alloc, row, 6) {
                Ok(last) => Ok(with_7(all, last)),
                Err(error) => Err(error),
            },
            Err(error) => Err(error),
        }
    }
}

// A member behind the others.
fn with_8<A, B, C, D, E, F, G, H>(all: (A, B, C, D, E, F, G), last: H) -> (A, B, C, D, E, F, G, H)
    ensures { result ≡ (all.0, all.1, all.2, all.3, all.4, all.5, all.6, last) }
{
    (all.0, all.1, all.2, all.3, all.4, all.5, all.6, last)
}

impl<
    DB: Database,
    A: FromColumn<DB>,
    B: FromColumn<DB>,
    C: FromColumn<DB>,
    D: FromColumn<DB>,
    E: FromColumn<DB>,
    F: FromColumn<DB>,
    G: FromColumn<DB>,
    H: FromColumn<DB>,
> FromRow<DB> for (A, B, C, D, E, F, G, H) {
    ghost use Rattle.sqlx_query_rows.specs.FromRow.{Gives, Then};

    ghost made = { λ row. Then (⟦<(A, B, C, D, E, F, G) as FromRow<DB>>⟧.made row) λ t. Then (H.column 7 row) λ x.
        Gives (t.0, t.1, t.2, t.3, t.4, t.5, t.6, x) };

    fn from_row(alloc: Global, row: &DB::Row) -> Result<Self, Error> {
        match <(A, B, C, D, E, F, G) as FromRow<DB>>::from_row(alloc, row) {
            Ok(all) => match H::from_column(alloc, row, 7) {
                Ok(last) => Ok(with_8(all, last)),
                Err(error) => Err(error),
            },
            Err(error) => Err(error),
        }
    }
}

// A member behind the others.
fn with_9<A, B, C, D, E, F, G, H, I>(
    all: (A, B, C, D, E, F, G, H),
    last: I,
) -> (A, B, C, D, E, F, G, H, I)
    ensures { result ≡ (all.0, all.1, all.2, all.3, all.4, all.5, all.6, all.7, last) }
{
    (all.0, all.1, all.2, all.3, all.4, all.5, all.6, all.7, last)
}

impl<
    DB: Database,
    A: FromColumn<DB>,
    B: FromColumn<DB>,
    C: FromColumn<DB>,
    D: FromColumn<DB>,
    E: FromColumn<DB>,
    F: FromColumn<DB>,
    G: FromColumn<DB>,
    H: FromColumn<DB>,
    I: FromColumn<DB>,
> FromRow<DB> for (A, B, C, D, E, F, G, H, I) {
    ghost use Rattle.sqlx_query_rows.specs.FromRow.{Gives, Then};

    ghost made = { λ row. Then (⟦<(A, B, C, D, E, F, G, H) as FromRow<DB>>⟧.made row) λ t. Then (I.column 8 row) λ x.
        Gives (t.0, t.1, t.2, t.3, t.4, t.5, t.6, t.7, x) };

    fn from_row(alloc: Global, row: &DB::Row) -> Result<Self, Error> {
        match <(A, B, C, D, E, F, G, H) as FromRow<DB>>::from_row(alloc, row) {
            Ok(all) => match I::from_column(alloc, row, 8) {
                Ok(last) => Ok(with_9(all, last)),
                Err(error) => Err(error),
            },
            Err(error) => Err(error),
        }
    }
}

// A member behind the others.
fn with_10<A, B, C, D, E, F, G, H, I, J>(
    all: (A, B, C, D, E, F, G, H, I),
    last: J,
) -> (A, B, C, D, E, F, G, H, I, J)
    ensures { result ≡ (all.0, all.1, all.2, all.3, all.4, all.5, all.6, all.7, all.8, last) }
{
    (
        all.0, all.1, all.2, all.3, all.4, all.5, all.6, all.7, all.8, last,
    )
}

impl<
    DB: Database,
    A: FromColumn<DB>,
    B: FromColumn<DB>,
    C: FromColumn<DB>,
    D: FromColumn<DB>,
    E: FromColumn<DB>,
    F: FromColumn<DB>,
    G: FromColumn<DB>,
    H: FromColumn<DB>,
    I: FromColumn<DB>,
    J: FromColumn<DB>,
> FromRow<DB> for (A, B, C, D, E, F, G, H, I, J) {
    ghost use Rattle.sqlx_query_rows.specs.FromRow.{Gives, Then};

    ghost made = { λ row. Then (⟦<(A, B, C, D, E, F, G, H, I) as FromRow<DB>>⟧.made row) λ t. Then (J.column 9 row) λ x.
        Gives (t.0, t.1, t.2, t.3, t.4, t.5, t.6, t.7, t.8, x) };

    fn from_row(alloc: Global, row: &DB::Row) -> Result<Self, Error> {
        match <(A, B, C, D, E, F, G, H, I) as FromRow<DB>>::from_row(alloc, row) {
            Ok(all) => match J::from_column(alloc, row, 9) {
                Ok(last) => Ok(with_10(all, last)),
                Err(error) => Err(error),
            },
            Err(error) => Err(error),
        }
    }
}

// A member behind the others.
fn with_11<A, B, C, D, E, F, G, H, I, J, K>(
    all: (A, B, C, D, E, F, G, H, I, J),
    last: K,
) -> (A, B, C, D, E, F, G, H, I, J, K)
    ensures { result ≡ (all.0, all.1, all.2, all.3, all.4, all.5, all.6, all.7, all.8, all.9, last) }
{
    (
        all.0, all.1, all.2, all.3, all.4, all.5, all.6, all.7, all.8, all.9, last,
    )
}

impl<
    DB: Database,
    A: FromColumn<DB>,
    B: FromColumn<DB>,
    C: FromColumn<DB>,
    D: FromColumn<DB>,
    E: FromColumn<DB>,
    F: FromColumn<DB>,
    G: FromColumn<DB>,
    H: FromColumn<DB>,
    I: FromColumn<DB>,
    J: FromColumn<DB>,
    K: FromColumn<DB>,
> FromRow<DB> for (A, B, C, D, E, F, G, H, I, J, K) {
    ghost use Rattle.sqlx_query_rows.specs.FromRow.{Gives, Then};

    ghost made = { λ row. Then (⟦<(A, B, C, D, E, F, G, H, I, J) as FromRow<DB>>⟧.made row) λ t. Then (K.column 10 row) λ x.
        Gives (t.0, t.1, t.2, t.3, t.4, t.5, t.6, t.7, t.8, t.9, x) };

    fn from_row(alloc: Global, row: &DB::Row) -> Result<Self, Error> {
        match <(A, B, C, D, E, F, G, H, I, J) as FromRow<DB>>::from_row(alloc, row) {
            Ok(all) => match K::from_column(alloc, row, 10) {
                Ok(last) => Ok(with_11(all, last)),
                Err(error) => Err(error),
            },
            Err(error) => Err(error),
        }
    }
}

// A member behind the others.
fn with_12<A, B, C, D, E, F, G, H, I, J, K, L>(
    all: (A, B, C, D, E, F, G, H, I, J, K),
    last: L,
) -> (A, B, C, D, E, F, G, H, I, J, K, L)
    ensures { result ≡ (all.0, all.1, all.2, all.3, all.4, all.5, all.6, all.7, all.8, all.9, all.10, last) }
{
    (
        all.0, all.1, all.2, all.3, all.4, all.5, all.6, all.7, all.8, all.9, all.10, last,
    )
}

impl<
    DB: Database,
    A: FromColumn<DB>,
    B: FromColumn<DB>,
    C: FromColumn<DB>,
    D: FromColumn<DB>,
    E: FromColumn<DB>,
    F: FromColumn<DB>,
    G: FromColumn<DB>,
    H: FromColumn<DB>,
    I: FromColumn<DB>,
    J: FromColumn<DB>,
    K: FromColumn<DB>,
    L: FromColumn<DB>,
> FromRow<DB> for (A, B, C, D, E, F, G, H, I, J, K, L) {
    ghost use Rattle.sqlx_query_rows.specs.FromRow.{Gives, Then};

    ghost made = { λ row. Then (⟦<(A, B, C, D, E, F, G, H, I, J, K) as FromRow<DB>>⟧.made row) λ t. Then (L.column 11 row) λ x.
        Gives (t.0, t.1, t.2, t.3, t.4, t.5, t.6, t.7, t.8, t.9, t.10, x) };

    fn from_row(alloc: Global, row: &DB::Row) -> Result<Self, Error> {
        match <(A, B, C, D, E, F, G, H, I, J, K) as FromRow<DB>>::from_row(alloc, row) {
            Ok(all) => match L::from_column(alloc, row, 11) {
                Ok(last) => Ok(with_12(all, last)),
                Err(error) => Err(error),
            },
            Err(error) => Err(error),
        }
    }
}

// A member behind the others.
fn with_13<A, B, C, D, E, F, G, H, I, J, K, L, M>(
    all: (A, B, C, D, E, F, G, H, I, J, K, L),
    last: M,
) -> (A, B, C, D, E, F, G, H, I, J, K, L, M)
    ensures { result ≡ (all.0, (all.1, (all.2, (all.3, (all.4, (all.5, (all.6, (all.7, (all.8, (all.9, (all.10, (all.11, (last, record {}))))))))))))) }
{
    (
        all.0, all.1, all.2, all.3, all.4, all.5, all.6, all.7, all.8, all.9, all.10, all.11, last,
    )
}

impl<
    DB: Database,
    A: FromColumn<DB>,
    B: FromColumn<DB>,
    C: FromColumn<DB>,
    D: FromColumn<DB>,
    E: FromColumn<DB>,
    F: FromColumn<DB>,
    G: FromColumn<DB>,
    H: FromColumn<DB>,
    I: FromColumn<DB>,
    J: FromColumn<DB>,
    K: FromColumn<DB>,
    L: FromColumn<DB>,
    M: FromColumn<DB>,
> FromRow<DB> for (A, B, C, D, E, F, G, H, I, J, K, L, M) {
    ghost use Rattle.sqlx_query_rows.specs.FromRow.{Gives, Then};

    ghost made = { λ row. Then (⟦<(A, B, C, D, E, F, G, H, I, J, K, L) as FromRow<DB>>⟧.made row) λ t. Then (M.column 12 row) λ x.
        Gives (t.0, (t.1, (t.2, (t.3, (t.4, (t.5, (t.6, (t.7, (t.8, (t.9, (t.10, (t.11, (x, record {}))))))))))))) };

    fn from_row(alloc: Global, row: &DB::Row) -> Result<Self, Error> {
        match <(A, B, C, D, E, F, G, H, I, J, K, L) as FromRow<DB>>::from_row(alloc, row) {
            Ok(all) => match M::from_column(alloc, row, 12) {
                Ok(last) => Ok(with_13(all, last)),
                Err(error) => Err(error),
            },
            Err(error) => Err(error),
        }
    }
}

// A member behind the others.
fn with_14<A, B, C, D, E, F, G, H, I, J, K, L, M, N>(
    all: (A, B, C, D, E, F, G, H, I, J, K, L, M),
    last: N,
) -> (A, B, C, D, E, F, G, H, I, J, K, L, M, N)
    ensures { result ≡ past_four (past_four (past_four (past (λ _ x. (x, record {}))))) all last }
{
    (
        all.0, all.1, all.2, all.3, all.4, all.5, all.6, all.7, all.8, all.9, all.10, all.11,
        all.12, last,
    )
}

impl<
    DB: Database,
    A: FromColumn<DB>,
    B: FromColumn<DB>,
    C: FromColumn<DB>,
    D: FromColumn<DB>,
    E: FromColumn<DB>,
    F: FromColumn<DB>,
    G: FromColumn<DB>,
    H: FromColumn<DB>,
    I: FromColumn<DB>,
    J: FromColumn<DB>,
    K: FromColumn<DB>,
    L: FromColumn<DB>,
    M: FromColumn<DB>,
    N: FromColumn<DB>,
> FromRow<DB> for (A, B, C, D, E, F, G, H, I, J, K, L, M, N) {
    ghost use Rattle.sqlx_query_rows.specs.FromRow.{Gives, Then};
    ghost use Rattle.sqlx_query_rows.specs.Tuples.{past, past_four};

    ghost made = { λ row. Then (⟦<(A, B, C, D, E, F, G, H, I, J, K, L, M) as FromRow<DB>>⟧.made row) λ t. Then (N.column 13 row) λ x.
        Gives (past_four (past_four (past_four (past (λ _ x. (x, record {}))))) t x) };

    fn from_row(alloc: Global, row: &DB::Row) -> Result<Self, Error> {
        match <(A, B, C, D, E, F, G, H, I, J, K, L, M) as FromRow<DB>>::from_row(alloc, row) {
            Ok(all) => match N::from_column(alloc, row, 13) {
                Ok(last) => Ok(with_14(all, last)),
                Err(error) => Err(error),
            },
            Err(error) => Err(error),
        }
    }
}

// A member behind the others.
fn with_15<A, B, C, D, E, F, G, H, I, J, K, L, M, N, O>(
    all: (A, B, C, D, E, F, G, H, I, J, K, L, M, N),
    last: O,
) -> (A, B, C, D, E, F, G, H, I, J, K, L, M, N, O)
    ensures { result ≡ past_four (past_four (past_four (past (past (λ _ x. (x, record {})))))) all last }
{
    (
        all.0, all.1, all.2, all.3, all.4, all.5, all.6, all.7, all.8, all.9, all.10, all.11,
        all.12, all.13, last,
    )
}

impl<
    DB: Database,
    A: FromColumn<DB>,
    B: FromColumn<DB>,
    C: FromColumn<DB>,
    D: FromColumn<DB>,
    E: FromColumn<DB>,
    F: FromColumn<DB>,
    G: FromColumn<DB>,
    H: FromColumn<DB>,
    I: FromColumn<DB>,
    J: FromColumn<DB>,
    K: FromColumn<DB>,
    L: FromColumn<DB>,
    M: FromColumn<DB>,
    N: FromColumn<DB>,
    O: FromColumn<DB>,
> FromRow<DB> for (A, B, C, D, E, F, G, H, I, J, K, L, M, N, O) {
    ghost use Rattle.sqlx_query_rows.specs.FromRow.{Gives, Then};
    ghost use Rattle.sqlx_query_rows.specs.Tuples.{past, past_four};

    ghost made = { λ row. Then (⟦<(A, B, C, D, E, F, G, H, I, J, K, L, M, N) as FromRow<DB>>⟧.made row) λ t. Then (O.column 14 row) λ x.
        Gives (past_four (past_four (past_four (past (past (λ _ x. (x, record {})))))) t x) };

    fn from_row(alloc: Global, row: &DB::Row) -> Result<Self, Error> {
        match <(A, B, C, D, E, F, G, H, I, J, K, L, M, N) as FromRow<DB>>::from_row(alloc, row) {
            Ok(all) => match O::from_column(alloc, row, 14) {
                Ok(last) => Ok(with_15(all, last)),
                Err(error) => Err(error),
            },
            Err(error) => Err(error),
        }
    }
}

// A member behind the others.
fn with_16<A, B, C, D, E, F, G, H, I, J, K, L, M, N, O, P>(
    all: (A, B, C, D, E, F, G, H, I, J, K, L, M, N, O),
    last: P,
) -> (A, B, C, D, E, F, G, H, I, J, K, L, M, N, O, P)
    ensures { result ≡ past_four (past_four (past_four (past (past (past (λ _ x. (x, record {}))))))) all last }
{
    (
        all.0, all.1, all.2, all.3, all.4, all.5, all.6, all.7, all.8, all.9, all.10, all.11,
        all.12, all.13, all.14, last,
    )
}

impl<
    DB: Database,
    A: FromColumn<DB>,
    B: FromColumn<DB>,
    C: FromColumn<DB>,
    D: FromColumn<DB>,
    E: FromColumn<DB>,
    F: FromColumn<DB>,
    G: FromColumn<DB>,
    H: FromColumn<DB>,
    I: FromColumn<DB>,
    J: FromColumn<DB>,
    K: FromColumn<DB>,
    L: FromColumn<DB>,
    M: FromColumn<DB>,
    N: FromColumn<DB>,
    O: FromColumn<DB>,
    P: FromColumn<DB>,
> FromRow<DB> for (A, B, C, D, E, F, G, H, I, J, K, L, M, N, O, P) {
    ghost use Rattle.sqlx_query_rows.specs.FromRow.{Gives, Then};
    ghost use Rattle.sqlx_query_rows.specs.Tuples.{past, past_four};

    ghost made = { λ row. Then (⟦<(A, B, C, D, E, F, G, H, I, J, K, L, M, N, O) as FromRow<DB>>⟧.made row) λ t. Then (P.column 15 row) λ x.
        Gives (past_four (past_four (past_four (past (past (past (λ _ x. (x, record {}))))))) t x) };

    fn from_row(alloc: Global, row: &DB::Row) -> Result<Self, Error> {
        match <(A, B, C, D, E, F, G, H, I, J, K, L, M, N, O) as FromRow<DB>>::from_row(alloc, row) {
            Ok(all) => match P::from_column(alloc, row, 15) {
                Ok(last) => Ok(with_16(all, last)),
                Err(error) => Err(error),
            },
            Err(error) => Err(error),
        }
    }
}
