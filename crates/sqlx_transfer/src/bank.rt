//! A bank as what answers the events of a script.
ghost use Rattle.std.specs.Prelude.{◌≡◌, ◌<◌, [], false, map, length, IfOk};
ghost use Rattle.sqlx_player.specs.Language.{Pairs};
ghost use Rattle.sqlx_transfer_rules.specs.declared.event.Event.TheVariants as AnEvent;
ghost use Rattle.sqlx_transfer_rules.specs.declared.event.Event.{Event as EventValue};
ghost use Rattle.sqlx_transfer_rules.specs.declared.reply.Reply.{Reply as ReplyValue};
ghost use Rattle.sqlx_transfer_rules.specs.declared.bank_line.BankLine.{BankLine as LineValue};
ghost use Rattle.sqlx_transfer_rules.specs.Transfers.{is_among, total_of};
ghost use Rattle.sqlx_transfer_rules.specs.Grammar.{IsBank};
ghost use Rattle.sqlx_transfer.specs.BankSteps.{ending};
ghost use Rattle.sqlx_transfer.specs.Stands.{GivesBack, Holds, HoldTogether, Replies, StandsFor, client_of, state_of};

use crate::holder::{Holder, place_of};
use crate::moving::Transfer;
use crate::opening::{fill_pool, write_openings};
use crate::pool::{lend, new_pool, take_back};
use crate::{events, level};
use sqlx_lines::{FirstLine, OutputLine};
use sqlx_play_acts::{ClientLink, MemStore, Route};
use sqlx_player::Responder;
use sqlx_pool_core::PoolCore;
use sqlx_text::OutOfMemory;
use sqlx_transfer_rules::{BankLine, Event, Reply, fill_total, read_event, read_opening};
use std::alloc::Global;
use std::marker::PhantomData;

/// A bank: the balances are rows of the store, and clients hold connections of the pool. Its statements take the way R
/// to the database.
pub struct Bank<R: Route> {
    pub core: PoolCore<ClientLink>,
    pub store: MemStore,
    line: BankLine,
    // The clients that have a connection, each with a level open.
    holders: Vec<Holder>,
    by: PhantomData<R>,
}

impl<R: Route> Drop for Bank<R> {
    fn drop(self) {
        let Bank {
            core,
            store,
            line: _,
            holders,
            by: _,
        } = self;
        drop(core);
        drop(store);
        drop(holders);
    }
}

impl<R: Route> Bank<R> {
    // The first level of a client that has no connection yet.
    fn take_connection(&mut self, alloc: Global, client: u32) -> Result<Reply, OutOfMemory>
        requires none { is_among client (map client_of self.old.holders.items) ≡ false }
        ensures { IfOk result (λ reply. Replies (AnEvent.Start client) reply (state_of self.old) (state_of self.new)) }
    {
        let Some(lent) = lend(&mut self.core, client) else {
            return Ok(Reply::Full);
        };
        let mut holder = Holder { client, lent };
        level::begin::<R>(alloc, &mut self.store, &mut holder.lent.raw)?;
        self.holders.push(holder)?;
        Ok(Reply::Level(1))
    }

    // A level is begun.
    fn start(&mut self, alloc: Global, client: u32) -> Result<Reply, OutOfMemory>
        ensures { IfOk result (λ reply. Replies (AnEvent.Start client) reply (state_of self.old) (state_of self.new)) }
    {
        let Some(place) = place_of(&self.holders, client) else {
            return self.take_connection(alloc, client);
        };
        let holder = &mut self.holders[place];
        let reply = events::start_next::<R>(alloc, &mut self.store, &mut holder.lent.raw)?;
        Ok(reply)
    }

    // An amount is moved.
    fn move_amount(
        &mut self,
        alloc: Global,
        client: u32,
        transfer: &Transfer,
    ) -> Result<Reply, OutOfMemory>
        ensures { IfOk result (λ reply. Replies (AnEvent.Move client transfer.now.from transfer.now.to transfer.now.amount transfer.now.met) reply (state_of self.old) (state_of self.new)) }
    {
        let Some(place) = place_of(&self.holders, client) else {
            return Ok(Reply::NoConnection);
        };
        let holder = &mut self.holders[place];
        let reply = events::move_for::<R>(alloc, &mut self.store, &mut holder.lent.raw, transfer)?;
        Ok(reply)
    }

    // A client whose last level ended gives its connection back.
    fn give_back(&mut self, place: usize)
        requires { place < length self.old.holders.items }
        ensures given { GivesBack self.old.core.pool self.old.holders.items place self.new.core.pool self.new.holders.items }
        ensures store { self.new.store ≡ self.old.store }
        ensures line { self.new.line ≡ self.old.line }
    {
        let Holder { client, lent } = self.holders.remove(place);
        take_back(&mut self.core, client, lent);
    }

    // The innermost level is committed, or rolled back.
    fn end_level(&mut self, alloc: Global, client: u32, commits: bool) -> Result<Reply, OutOfMemory>
        ensures { IfOk result (λ reply. Replies (ending client commits) reply (state_of self.old) (state_of self.new)) }
    {
        let Some(place) = place_of(&self.holders, client) else {
            return Ok(Reply::NoConnection);
        };
        let holder = &mut self.holders[place];
        events::end_for::<R>(alloc, &mut self.store, &mut holder.lent.raw, commits)?;
        let levels = holder.lent.raw.depth();
        if levels == 0 {
            self.give_back(place);
        }
        Ok(Reply::Level(levels as u64))
    }

    // Every level is given up.
    fn drop_levels(&mut self, alloc: Global, client: u32) -> Result<Reply, OutOfMemory>
        ensures { IfOk result (λ reply. Replies (AnEvent.Drop client) reply (state_of self.old) (state_of self.new)) }
    {
        let Some(place) = place_of(&self.holders, client) else {
            return Ok(Reply::NoConnection);
        };
        let holder = &mut self.holders[place];
        events::give_all_up::<R>(alloc, &mut self.store, &mut holder.lent.raw)?;
        self.give_back(place);
        Ok(Reply::Dropped)
    }

    // What an account holds, as far as it is committed.
    fn balance(&self, account: u32) -> i64
        ensures { Holds (state_of self.now) account result }
    {
        self.store.get(i64::from(account)).unwrap_or(0)
    }

    // Answers an event.
    fn reply_to(&mut self, alloc: Global, event: &Event) -> Result<Reply, OutOfMemory>
        ensures { IfOk result (λ reply. Replies event.now reply (state_of self.old) (state_of self.new)) }
    {
        match *event {
            Event::Start { client } => self.start(alloc, client),
            Event::Move {
                client,
                from,
                to,
                amount,
                met,
            } => self.move_amount(
                alloc,
                client,
                &Transfer {
                    from,
                    to,
                    amount,
                    met,
                },
            ),
            Event::Commit { client } => self.end_level(alloc, client, true),
            Event::Undo { client } => self.end_level(alloc, client, false),
            Event::Drop { client } => self.drop_levels(alloc, client),
            Event::Show { account } => Ok(Reply::Balance(self.balance(account))),
        }
    }

    // The committed balances of accounts 1 to so many, added up.
    fn total_upto(&self, accounts: u32) -> i128
        ensures { HoldTogether (state_of self.now) accounts result }
    {
        let mut total: i128 = 0;
        let mut account: u32 = 0;
        while account < accounts {
            account += 1;
            total += i128::from(self.balance(account));
        }
        total
    }

    // The committed balances of all accounts, added up.
    fn total(&self) -> i128
        ensures { (first : LineValue) (pairs : Pairs EventValue ReplyValue) → StandsFor (state_of self.now) first pairs → result ≡ total_of first pairs first.accounts }
    {
        self.total_upto(self.line.accounts)
    }
}

impl<R: Route> Bank<R> {
    // A bank of which each account holds the opening balance.
    fn new(alloc: Global, line: BankLine) -> Result<Bank<R>, OutOfMemory>
        requires { IsBank line }
        ensures { IfOk result (λ bank. StandsFor (state_of bank) line []) }
    {
        let mut store = MemStore::new(alloc);
        let mut core = new_pool(alloc, line.max)?;
        let mut link = ClientLink::connect(alloc, &mut store)?;
        write_openings::<R>(alloc, &mut store, &mut link, line.accounts, line.opening)?;
        fill_pool(alloc, &mut store, &mut core, link, line.max)?;
        Ok(Bank {
            core,
            store,
            line,
            holders: Vec::new(alloc),
            by: PhantomData,
        })
    }

    /// The pool's core and the store.
    pub fn into_parts(self) -> (PoolCore<ClientLink>, MemStore)
        ensures { (result.0 ≡ self.core) × (result.1 ≡ self.store) }
    {
        let Bank {
            core,
            store,
            line: _,
            holders,
            by: _,
        } = self;
        drop(holders);
        (core, store)
    }
}

impl<R: Route> Responder for Bank<R> {
    ghost use Rattle.sqlx_transfer_rules.specs.Rules.{transfer_language};
    ghost use Rattle.sqlx_transfer.specs.Stands.{StandsFor, state_of};

    type First = BankLine;

    type Event = Event;

    type Reply = Reply;

    ghost language = { transfer_language };

    ghost stands = { λ bank. StandsFor (state_of bank) };

    fn open(alloc: Global, text: &[u8]) -> Result<Option<FirstLine<'_, Bank<R>>>, OutOfMemory> {
        let Some(line) = read_opening(text) else {
            return Ok(None);
        };
        let says = Bank::new(alloc, line.says)?;
        Ok(Some(FirstLine {
            says,
            behind: line.behind,
        }))
    }

    fn read<'a>(&self, text: &'a [u8]) -> Option<FirstLine<'a, Event>> {
        read_event(text, self.line.accounts)
    }

    fn answer(
        &mut self,
        alloc: Global,
        event: &Event,
        line: &mut OutputLine,
    ) -> Result<(), OutOfMemory> {
        let reply = self.reply_to(alloc, event)?;
        reply.fill_line(line);
        Ok(())
    }

    fn close(&mut self, _alloc: Global, line: &mut OutputLine) -> Result<(), OutOfMemory> {
        fill_total(line, self.total());
        Ok(())
    }
}
