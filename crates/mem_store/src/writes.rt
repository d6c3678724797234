//! A connection's own writes.
ghost use Rattle.std.specs.Prelude.{◌≡◌, ◌<◌, ◌∷◌, [], length, vec_capacity, IfOk, OnOk, OnErr, IfSome, IfNone, None};
ghost use Rattle.std.specs.FinMap as finite;
ghost use Rattle.std.specs.Ordering.{int_cmp};
ghost use Rattle.sqlx_pool_places.specs.Numbered.{items_at};
ghost use Rattle.sqlx_pool_places.specs.Notes.{Tells};
ghost use Rattle.sqlx_savepoints.specs.Rows.{laid, written};
ghost use Rattle.mem_store.specs.OwnWrites.{number_of, StandOnce, StandsAt};
ghost use Rattle.mem_store.specs.UndoLog.{deletions_done, put_back, unwritten, values_inserted};

use crate::rows::Rows;
use crate::saved::Overwrite;
use sqlx_pool_places::{Notes, Numbering};
use sqlx_text::OutOfMemory;
use std::alloc::Global;
use std::collections::VecDeque;
use std::marker::Model;

// The memory of more places than these is given back when the writes are forgotten.
const KEPT: usize = 16;

/// A key, and the value that is written there, or none where it is deleted.
type Write = (i64, Option<i64>);

/// Writes that aren't committed, one for each key.
pub(crate) struct Writes {
    // In the order in which the keys came. A write that was undone left a gap. They are closed where the places are used up.
    places: Vec<Option<Write>>,
    notes: Notes,
    alloc: Global,
}

impl Drop for Writes {
    fn drop(self) {
        let Writes {
            places,
            notes,
            alloc: _,
        } = self;
        drop(places);
        drop(notes);
    }
}

impl Model for Writes {
    ghost use Rattle.std.specs.Prelude.{ℤ, Option};
    ghost use Rattle.std.specs.FinMap as finite;
    ghost use Rattle.std.specs.Ordering.{int_cmp};
    ghost use Rattle.std.specs.Coded.{coded_ℤ, coded_option};
    ghost use Rattle.sqlx_pool_places.specs.Numbered.{items_at};
    ghost use Rattle.sqlx_pool_places.specs.Notes.{Tells};
    ghost use Rattle.mem_store.specs.OwnWrites.{number_of, StandOnce};

    ghost Value = { finite.FinMap int_cmp (Option ℤ) };

    ghost coded = { finite.code coded_ℤ (coded_option coded_ℤ) };

    ghost view = { λ a. finite.from_entries (items_at a.places.items) };

    ghost invariant = { λ a. Tells number_of a.notes a.places.items × StandOnce (items_at a.places.items) };
}

impl Numbering<Write> for Writes {
    ghost use Rattle.mem_store.specs.OwnWrites.{number_of};

    ghost number = { number_of };

    fn number(write: &Write) -> u64 {
        write.0.cast_unsigned()
    }
}

// Makes room for one more. Where the places are used up the gaps are closed, and three times as many places are added as are left.
fn make_room(places: &mut Vec<Option<Write>>, notes: &mut Notes) -> Result<(), OutOfMemory>
    requires { Tells number_of notes.old places.old.items }
    ensures items { items_at places.new.items ≡ items_at places.old.items }
    ensures tells { Tells number_of notes.new places.new.items }
    ensures room { OnOk result (length places.new.items < vec_capacity places.new) }
{
    if places.len() < places.capacity() {
        return Ok(());
    }
    notes.close_gaps::<Write, Writes>(places);
    match places.reserve(places.len().saturating_mul(3).max(4)) {
        Ok(()) => Ok(()),
        Err(_) => Err(OutOfMemory),
    }
}

// The place of the key's write.
fn place_of(notes: &Notes, places: &[Option<Write>], key: i64) -> Option<usize>
    requires tells { Tells number_of notes.now places.now }
    requires once { StandOnce (items_at places.now) }
    ensures some { IfSome result (StandsAt key places.now) }
    ensures none { IfNone result (finite.find int_cmp key (items_at places.now) ≡ None) }
{
    notes.find::<Write, Writes>(places, key.cast_unsigned())
}

impl Writes {
    pub(crate) fn new(alloc: Global) -> Writes
        ensures { result ≡ finite.empty }
    {
        Writes {
            places: Vec::new(alloc),
            notes: Notes::new(alloc),
            alloc,
        }
    }

    /// Forgets all writes.
    pub(crate) fn clear(&mut self)
        ensures { self.new ≡ finite.empty }
    {
        if self.places.capacity() > KEPT {
            self.places = Vec::new(self.alloc);
            self.notes = Notes::new(self.alloc);
        } else {
            self.places.clear();
            self.notes.close_gaps::<Write, Writes>(&mut self.places);
        }
    }

    pub(crate) fn get(&self, key: i64) -> Option<Option<i64>>
        ensures { result ≡ finite.get self.now key }
    {
        let place = place_of(&self.notes, &self.places, key)?;
        let (_, value) = self.places[place]?;
        Some(value)
    }

    /// A write at the key. Answers what stood there.
    pub(crate) fn insert(
        &mut self,
        key: i64,
        value: Option<i64>,
    ) -> Result<Option<Option<i64>>, OutOfMemory>
        ensures before { IfOk result (λ before. before ≡ finite.get self.old key) }
        ensures ok { OnOk result (self.new ≡ finite.insert self.old key value) }
        ensures err { OnErr result (self.new ≡ self.old) }
    {
        let Some(place) = place_of(&self.notes, &self.places, key) else {
            self.push(key, value)?;
            return Ok(None);
        };
        match self.places[place].replace((key, value)) {
            Some((_, before)) => Ok(Some(before)),
            None => Ok(None),
        }
    }

    // A write at a key that has none.
    fn push(&mut self, key: i64, value: Option<i64>) -> Result<(), OutOfMemory>
        requires { finite.get self.old key ≡ None }
        ensures ok { OnOk result (self.new ≡ finite.insert self.old key value) }
        ensures err { OnErr result (self.new ≡ self.old) }
    {
        make_room(&mut self.places, &mut self.notes)?;
        self.notes
            .note_last::<Write, Writes>(&self.places, key.cast_unsigned());
        self.places.push_reserved(Some((key, value)));
        Ok(())
    }

    /// Puts back what stood at the key: nothing, or a write in place of the one that is there.
    pub(crate) fn put_back(&mut self, key: i64, before: Option<Option<i64>>)
        ensures { self.new ≡ put_back key before self.old }
    {
        let Some(place) = place_of(&self.notes, &self.places, key) else {
            return;
        };
        let write = match before {
            Some(value) => Some((key, value)),
            None => None,
        };
        self.places[place] = write;
    }

    /// New rows: these writes laid over the given ones.
    pub(crate) fn laid_over(&self, rows: &Rows) -> Result<Rows, OutOfMemory>
        ensures { IfOk result (λ made. made ≡ laid self.now rows.now) }
    {
        let mut made = rows.try_clone()?;
        match self.lay_over(&mut made) {
            Ok(()) => Ok(made),
            Err(error) => Err(error),
        }
    }

    /// Lays these writes over the rows, in place. Where memory is wanting the rows are as before:
    /// all that takes memory comes first, and is undone, which takes none.
    pub(crate) fn lay_over(&self, rows: &mut Rows) -> Result<(), OutOfMemory>
        ensures ok { OnOk result (rows.new ≡ laid self.now rows.old) }
        ensures err { OnErr result (rows.new ≡ rows.old) }
    {
        let mut noted = VecDeque::new(self.alloc);
        match insert_values(&self.places, rows, &mut noted) {
            Ok(()) => {
                do_deletions(&self.places, rows);
                Ok(())
            }
            Err(error) => {
                unwrite(rows, &mut noted);
                Err(error)
            }
        }
    }
}

/// Puts the values among the writes into rows, and notes what they overwrite.
fn insert_values(
    places: &[Option<Write>],
    rows: &mut Rows,
    noted: &mut VecDeque<Overwrite>,
) -> Result<(), OutOfMemory>
    ensures ok { OnOk result (rows.new ≡ values_inserted (items_at places.now) rows.old) }
    ensures undo { unwritten noted.new.items rows.new ≡ unwritten noted.old.items rows.old }
{
    for place in places {
        insert_at(rows, noted, place)?;
    }
    Ok(())
}

fn insert_at(
    rows: &mut Rows,
    noted: &mut VecDeque<Overwrite>,
    place: &Option<Write>,
) -> Result<(), OutOfMemory>
    ensures ok { OnOk result (rows.new ≡ values_inserted (items_at (place.now ∷ [])) rows.old) }
    ensures undo { unwritten noted.new.items rows.new ≡ unwritten noted.old.items rows.old }
{
    match *place {
        Some((key, Some(value))) => overwrite(rows, noted, key, value),
        Some((_, None)) => Ok(()),
        None => Ok(()),
    }
}

/// Does the deletions among the writes.
fn do_deletions(places: &[Option<Write>], rows: &mut Rows)
    ensures { rows.new ≡ deletions_done (items_at places.now) rows.old }
{
    for place in places {
        delete_at(rows, place);
    }
}

fn delete_at(rows: &mut Rows, place: &Option<Write>)
    ensures { rows.new ≡ deletions_done (items_at (place.now ∷ [])) rows.old }
{
    match *place {
        Some((key, None)) => rows.remove(key),
        Some((_, Some(_))) => {}
        None => {}
    }
}

/// One write into rows.
pub(crate) fn write(rows: &mut Rows, key: i64, value: Option<i64>) -> Result<(), OutOfMemory>
    ensures ok { OnOk result (rows.new ≡ written key value rows.old) }
    ensures err { OnErr result (rows.new ≡ rows.old) }
{
    match value {
        Some(value) => {
            let _ = rows.insert(key, value)?;
            Ok(())
        }
        None => {
            rows.remove(key);
            Ok(())
        }
    }
}

/// A value into rows; what it overwrites is noted. Room for the note comes first, so that the rows are
/// searched once.
fn overwrite(
    rows: &mut Rows,
    noted: &mut VecDeque<Overwrite>,
    key: i64,
    value: i64,
) -> Result<(), OutOfMemory>
    ensures ok { OnOk result (rows.new ≡ finite.insert rows.old key value) }
    ensures undo { unwritten noted.new.items rows.new ≡ unwritten noted.old.items rows.old }
{
    if noted.reserve(1).is_err() {
        return Err(OutOfMemory);
    }
    let before = rows.insert(key, value)?;
    noted.push_front_reserved(Overwrite { key, before });
    Ok(())
}

/// Undoes what was noted, the newest first.
fn unwrite(rows: &mut Rows, noted: &mut VecDeque<Overwrite>)
    ensures { rows.new ≡ unwritten noted.old.items rows.old }
{
    while let Some(overwrite) = noted.pop_front() {
        rows.put_back(overwrite.key, overwrite.before);
    }
}
