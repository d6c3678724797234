//! The mapped rows of a query, handed out one by one. A refusal of the mapper is the last item.
ghost use Rattle.std.specs.Prelude.{◌≡◌, [], length};
ghost use Rattle.sqlx_query_rows.specs.Mapping.{MapsAll, NextRow, NextStep, ReadsOne, ReadsOptional, left_after, made_by};

use crate::Mapper;
use either::Either;
use sqlx_text::Error;
use sqlx_traits::{Database, RowList, StepList};
use std::alloc::Global;
use std::collections::VecDeque;
use std::mem;

/// The mapped rows that are still to be handed out.
#[derive(Drop)]
pub struct MappedRowList<Q, R, F> {
    alloc: Global,
    rows: RowList<Q, R>,
    mapper: F,
}

/// What `Map::fetch` gives.
pub type MapStream<DB, F> = MappedRowList<<DB as Database>::QueryResult, <DB as Database>::Row, F>;

impl<Q, R, F> MappedRowList<Q, R, F> {
    /// These rows, which the mapper is still to map.
    pub fn new(alloc: Global, rows: RowList<Q, R>, mapper: F) -> Self
        ensures rows { result.rows ≡ rows }
        ensures mapper { result.mapper ≡ mapper }
    {
        MappedRowList {
            alloc,
            rows,
            mapper,
        }
    }
}

/// Hands out the next row as the mapper makes it, or its refusal, or the error behind the rows.
impl<Q: Drop, R: Drop, F: Mapper<R>> Iterator for MappedRowList<Q, R, F> {
    type Item = Result<F::Out, Error>;

    ghost use Rattle.std.specs.Iterator.{at_most};

    ghost can_next = { λ s. F.ready s.mapper };

    ghost next_gives = { λ s answer t. NextRow F.maps s.rows s.mapper answer t.rows t.mapper };

    ghost remaining = { λ s. at_most (length s.rows) };

    fn next(&mut self) -> Option<Result<F::Out, Error>> {
        match self.rows.next() {
            Some(Ok(row)) => Some(self.map_row(row)),
            Some(Err(error)) => Some(Err(error)),
            None => None,
        }
    }

    fn size_hint(&self) -> (usize, Option<usize>) {
        (0, None)
    }
}

impl<Q: Drop, R: Drop, F: Mapper<R>> MappedRowList<Q, R, F> {
    /// All mapped rows, or the first error or refusal, or want of memory.
    #[tactic(auto, using(crate::proofs::MappingLemmas::after_none, crate::proofs::MappingLemmas::after_next))]
    pub fn all_rows(self) -> Result<Vec<F::Out>, Error>
        requires { F.ready self.mapper }
        ensures { MapsAll (λ all. all.items) F.maps self.rows self.mapper result }
    {
        let mut stream = self;
        let mut all = Vec::new(stream.alloc);
        while let Some(item) = stream.next() {
            match item {
                Ok(made) => {
                    if all.push(made).is_err() {
                        drop(stream);
                        drop(all);
                        return Err(Error::OutOfMemory);
                    }
                }
                Err(error) => {
                    drop(stream);
                    drop(all);
                    return Err(error);
                }
            }
        }
        drop(stream);
        Ok(all)
    }

    // What the mapper makes of a row. After a refusal there are no rows any more.
    fn map_row(&mut self, row: R) -> Result<F::Out, Error>
        requires { F.ready self.old.mapper }
        ensures again { F.ready self.new.mapper }
        ensures maps { F.maps self.old.mapper row result self.new.mapper }
        ensures left { self.new.rows ≡ left_after result self.old.rows }
    {
        let answer = self.mapper.call(row);
        if answer.is_err() {
            drop(mem::replace(&mut self.rows, RowList::new(nothing(self.alloc))));
        }
        answer
    }
}

/// The results and mapped rows that are still to be handed out.
#[derive(Drop)]
pub struct MappedStepList<Q, R, F> {
    alloc: Global,
    list: StepList<Q, R>,
    mapper: F,
}

/// What `Map::fetch_many` gives.
pub type MapManyStream<DB, F> = MappedStepList<
    <DB as Database>::QueryResult,
    <DB as Database>::Row,
    F,
>;

impl<Q, R, F> MappedStepList<Q, R, F> {
    /// These results and rows, which the mapper is still to map.
    pub fn new(alloc: Global, list: StepList<Q, R>, mapper: F) -> Self
        ensures list { result.list ≡ list }
        ensures mapper { result.mapper ≡ mapper }
    {
        MappedStepList {
            alloc,
            list,
            mapper,
        }
    }
}

/// Hands out the next result, or the next row as the mapper makes it, or a refusal.
impl<Q: Drop, R: Drop, F: Mapper<R>> Iterator for MappedStepList<Q, R, F> {
    type Item = Result<Either<Q, F::Out>, Error>;

    ghost use Rattle.std.specs.Iterator.{at_most};

    ghost can_next = { λ s. F.ready s.mapper };

    ghost next_gives = { λ s answer t. NextStep F.maps s.list s.mapper answer t.list t.mapper };

    ghost remaining = { λ s. at_most (length s.list) };

    fn next(&mut self) -> Option<Result<Either<Q, F::Out>, Error>> {
        match self.list.next() {
            Some(Ok(Either::Right(row))) => match self.map_row(row) {
                Ok(made) => Some(Ok(Either::Right(made))),
                Err(error) => Some(Err(error)),
            },
            Some(Ok(Either::Left(result))) => Some(Ok(Either::Left(result))),
            Some(Err(error)) => Some(Err(error)),
            None => None,
        }
    }

    fn size_hint(&self) -> (usize, Option<usize>) {
        (0, None)
    }
}

impl<Q: Drop, R: Drop, F: Mapper<R>> MappedStepList<Q, R, F> {
    // What the mapper makes of a row. After a refusal there are no items any more.
    fn map_row(&mut self, row: R) -> Result<F::Out, Error>
        requires { F.ready self.old.mapper }
        ensures again { F.ready self.new.mapper }
        ensures maps { F.maps self.old.mapper row result self.new.mapper }
        ensures left { self.new.list ≡ left_after result self.old.list }
    {
        let answer = self.mapper.call(row);
        if answer.is_err() {
            drop(mem::replace(&mut self.list, nothing(self.alloc)));
        }
        answer
    }
}

fn nothing<Q, R>(alloc: Global) -> StepList<Q, R>
    ensures { result ≡ [] }
{
    StepList::new(VecDeque::new(alloc), None)
}

/// A row that is mapped, or the error in its place.
pub fn map_one<R, F: Mapper<R>>(mut mapper: F, row: Result<R, Error>) -> Result<F::Out, Error>
    requires { F.ready mapper }
    ensures { ReadsOne (made_by F.maps mapper) row result }
{
    match row {
        Ok(row) => mapper.call(row),
        Err(error) => Err(error),
    }
}

/// A row that is mapped if it is there, or the error in its place.
pub fn map_optional<R, F: Mapper<R>>(
    mut mapper: F,
    row: Result<Option<R>, Error>,
) -> Result<Option<F::Out>, Error>
    requires { F.ready mapper }
    ensures { ReadsOptional (made_by F.maps mapper) row result }
{
    match row {
        Ok(Some(row)) => match mapper.call(row) {
            Ok(made) => Ok(Some(made)),
            Err(error) => Err(error),
        },
        Ok(None) => Ok(None),
        Err(error) => Err(error),
    }
}
