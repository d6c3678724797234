//! The links of the connections that clients own: one is found, taken out and changed where it lies without a look at
//! the others.
ghost use Rattle.std.specs.Prelude.{◌≡◌, ◌∷◌, ◌++◌, [], ◌<◌, find, length, vec_capacity, IfOk, OnOk, OnErr, IfSome, IfNone};
ghost use Rattle.sqlx_pool_places.specs.Numbered.{items_at};
ghost use Rattle.sqlx_pool_places.specs.Notes.{Tells};
ghost use Rattle.sqlx_pool_lists.specs.MaintenanceSteps.{without_first};
ghost use Rattle.sqlx_play.specs.events.StatementRuns.{RunsThere, RunsNowhere};
ghost use Rattle.sqlx_play.specs.stage.LentLinks.{is_lent, number_of};

use super::acts::run_on;
use super::statements::Statement;
use sqlx_play_acts::{ClientLink, MemStore, Route};
use sqlx_pool_core::Lent;
use sqlx_pool_places::{Notes, Numbering};
use sqlx_script::Reply;
use sqlx_text::OutOfMemory;
use std::alloc::Global;
use std::marker::Model;

/// Links of connections, in the order of lending.
pub struct LentList {
    // A link that was taken out left a gap. They are closed where the places are used up.
    places: Vec<Option<Lent<ClientLink>>>,
    notes: Notes,
}

impl Drop for LentList {
    fn drop(self) {
        let LentList { places, notes } = self;
        drop(places);
        drop(notes);
    }
}

impl Model for LentList {
    ghost use Rattle.sqlx_pool_places.specs.Numbered.{items_at};
    ghost use Rattle.sqlx_pool_places.specs.Notes.{Tells};
    ghost use Rattle.sqlx_play.specs.stage.LentLinks.{LentQueue, number_of, queue_code};

    ghost Value = { LentQueue };

    ghost coded = { queue_code };

    ghost view = { λ s. record { items = items_at s.places.items } };

    ghost invariant = { λ s. Tells number_of s.notes s.places.items };
}

impl Numbering<Lent<ClientLink>> for LentList {
    ghost use Rattle.sqlx_play.specs.stage.LentLinks.{number_of};

    ghost number = { number_of };

    fn number(lent: &Lent<ClientLink>) -> u64 {
        lent.id
    }
}

// Makes room for one more. Where the places are used up the gaps are closed, and as many places are added as are left.
fn make_room(
    places: &mut Vec<Option<Lent<ClientLink>>>,
    notes: &mut Notes,
) -> Result<(), OutOfMemory>
    requires { Tells number_of notes.old places.old.items }
    ensures items { items_at places.new.items ≡ items_at places.old.items }
    ensures tells { Tells number_of notes.new places.new.items }
    ensures room { OnOk result (length places.new.items < vec_capacity places.new) }
{
    if places.len() < places.capacity() {
        return Ok(());
    }
    notes.close_gaps::<Lent<ClientLink>, LentList>(places);
    match places.reserve(places.len().max(1)) {
        Ok(()) => Ok(()),
        Err(_) => Err(OutOfMemory),
    }
}

impl LentList {
    /// No links.
    pub fn new(alloc: Global) -> LentList
        ensures { result.items ≡ [] }
    {
        LentList {
            places: Vec::new(alloc),
            notes: Notes::new(alloc),
        }
    }

    /// Puts a link last.
    pub fn push(&mut self, lent: Lent<ClientLink>) -> Result<(), OutOfMemory>
        ensures ok { OnOk result (self.new.items ≡ self.old.items ++ lent ∷ []) }
        ensures err { OnErr result (self.new.items ≡ self.old.items) }
    {
        make_room(&mut self.places, &mut self.notes)?;
        self.notes
            .note_last::<Lent<ClientLink>, LentList>(&self.places, lent.id);
        self.places.push_reserved(Some(lent));
        Ok(())
    }

    /// Takes a connection's link out.
    pub fn take(&mut self, conn: u64) -> Option<Lent<ClientLink>>
        ensures found { result ≡ find (is_lent conn) self.old.items }
        ensures rest { self.new.items ≡ without_first (is_lent conn) self.old.items }
    {
        let place = self
            .notes
            .find::<Lent<ClientLink>, LentList>(&self.places, conn)?;
        self.places[place].take()
    }

    /// Runs a statement on its connection's link, where that lies.
    pub fn run<R: Route>(
        &mut self,
        store: &mut MemStore,
        alloc: Global,
        statement: Statement,
    ) -> Option<Result<Reply, OutOfMemory>>
        ensures ran { IfSome result (λ ran. IfOk ran (RunsThere statement self.old.items self.new.items store.old store.new)) }
        ensures none { IfNone result (RunsNowhere statement self.old.items self.new.items store.old store.new) }
    {
        let conn = u64::from(statement.connection);
        let place = self
            .notes
            .find::<Lent<ClientLink>, LentList>(&self.places, conn)?;
        let lent = self.places[place].as_mut()?;
        Some(run_on::<R>(store, alloc, &mut lent.raw, statement.act, statement.answer))
    }
}
