// The ends of the domains over sequential cells.

ghost use Rattle.std.specs.Prelude.{◌≡◌, ◌^◌, ◌<◌, ◌≤◌, ◌++◌, ℕ, length, IfSome, set, get_or, true, false, [], ◌∷◌};
ghost use Rattle.cell_core.specs.declared.moves.CellMove.TheVariants as moves;
ghost use Rattle.cell_core.specs.definitions.Cells.{cell_step, cell_reply, empty_cell, standing_at, stands};
ghost use Rattle.gals_core.specs.Channels.{link_at, with_reply, no_history, lists_in};
ghost use Rattle.domain_core.specs.definitions.step.EndCalls.{end_at};
ghost use Rattle.domain_core.specs.step.JoinLists.{StampsFit};

use crate::links::{Link, open_links};
use crate::opening::{open_cells, open_histories, open_lists};
use cell_core::{Cell, Ends, Joined, Side};
use domain_core::{Domain, EndOf};
use java_values::NoMemory;
use kernel_terms::System;
use std::alloc::Global;
use std::marker::Model;
use tick_log::{History, JoinRow};

/// A sequential cell and a history for each channel, and the ends of each domain. A domain whose
/// turn it is moves its ends.
#[derive(Drop)]
pub struct Channels {
    links: Vec<Link>,
    cells: Vec<Cell>,
    histories: Vec<History>,
    ticks: Vec<u32>,
    lists: Vec<Vec<EndOf>>,
    turn: usize,
}

impl Model for Channels {
    ghost use Rattle.std.specs.Prelude.{get_or, []};
    ghost use Rattle.gals_core.specs.Channels.{ChannelsState, AreChannels, lists_in};

    ghost Value = { ChannelsState };

    ghost view = { λ b. record {
      links = b.links.items;
      cells = b.cells.items;
      histories = b.histories.items;
      ticks = b.ticks.items;
      lists = lists_in b.lists.items;
      ends = get_or (lists_in b.lists.items) b.turn [];
    } };

    ghost invariant = { λ b. AreChannels (record {
      links = b.links.items;
      cells = b.cells.items;
      histories = b.histories.items;
      ticks = b.ticks.items;
      lists = lists_in b.lists.items;
      ends = get_or (lists_in b.lists.items) b.turn [];
    }) };
}

// An end of the domain whose turn it is.
fn own_end(lists: &Vec<Vec<EndOf>>, turn: usize, at: usize) -> EndOf
    requires { at < length (get_or (lists_in lists.now.items) turn []) }
    ensures { result ≡ end_at (get_or (lists_in lists.now.items) turn []) at }
{
    lists[turn][at]
}

// Recalls a side of a channel's cell.
fn recall_at(cells: &mut Vec<Cell>, channel: u32, side: Side) -> Option<Joined>
    requires within { channel < length cells.old.items }
    requires standing { stands (standing_at side (get_or cells.old.items channel empty_cell)) ≡
        true }
    ensures cells { cells.new.items ≡
        set cells.old.items channel
        (cell_step (moves.Recall side) (get_or cells.old.items channel empty_cell)) }
    ensures reply { result ≡
        cell_reply (moves.Recall side) (get_or cells.old.items channel empty_cell) }
{
    cells[channel as usize].recall(side)
}

// Offers at a side of a channel's cell.
fn offer_at(
    cells: &mut Vec<Cell>,
    channel: u32,
    side: Side,
    value: i64,
    stamp: u64,
) -> Option<Joined>
    requires within { channel < length cells.old.items }
    requires standing { stands (standing_at side (get_or cells.old.items channel empty_cell)) ≡
        false }
    requires stamp { stamp < 2 ^ 62 }
    ensures cells { cells.new.items ≡
        set cells.old.items channel
        (cell_step (moves.Offer side value stamp) (get_or cells.old.items channel empty_cell)) }
    ensures reply { result ≡
        cell_reply (moves.Offer side value stamp) (get_or cells.old.items channel empty_cell) }
{
    cells[channel as usize].offer(side, value, stamp)
}

// Adds the row of a join, where an offer was answered.
fn add_reply(
    histories: &mut Vec<History>,
    links: &Vec<Link>,
    ticks: &Vec<u32>,
    channel: u32,
    reply: Option<Joined>,
)
    requires link { channel < length links.now.items }
    requires history { channel < length histories.old.items }
    requires room { 1 ≤ (get_or histories.old.items channel no_history).room }
    requires sender { (link_at links.now.items channel).sender < length ticks.now.items }
    requires receiver { (link_at links.now.items channel).receiver < length ticks.now.items }
    requires stamps { IfSome reply StampsFit }
    ensures { histories.new.items ≡
        with_reply links.now.items ticks.now.items channel reply histories.old.items }
{
    if let Some(joined) = reply {
        let link = links[channel as usize];
        histories[channel as usize].push(JoinRow {
            value: joined.value,
            sender_ticks: ticks[link.sender as usize],
            receiver_ticks: ticks[link.receiver as usize],
            stamp: 1 + joined.mine.max(joined.theirs),
        });
    }
}

impl Ends for Channels {
    ghost use Rattle.std.specs.Prelude.{length};
    ghost use Rattle.gals_core.specs.Channels.{Moves, end_view};

    ghost count = { λ b. length b.ends };

    ghost end_at = { λ b at. end_view b at };

    ghost moved = { Moves };

    fn recall(&mut self, at: usize) -> Option<Joined> {
        let end = own_end(&self.lists, self.turn, at);
        recall_at(&mut self.cells, end.channel, end.side)
    }

    fn offer(&mut self, at: usize, value: i64, stamp: u64) -> Option<Joined> {
        let end = own_end(&self.lists, self.turn, at);
        let reply = offer_at(&mut self.cells, end.channel, end.side, value, stamp);
        add_reply(
            &mut self.histories,
            &self.links,
            &self.ticks,
            end.channel,
            reply,
        );
        reply
    }
}

impl Channels {
    ghost use Rattle.std.specs.Prelude.{◌+◌, ◌^◌, get_or, set, [], IfOk};
    ghost use Rattle.gals_core.specs.Opening.{AreOpened};
    ghost use Rattle.gals_core.specs.definitions.OrderPlans.{AreDomainsOf, AreBudgets};

    /// The channels of a system before the first turn, where each domain makes at most so many
    /// ticks.
    pub fn open(
        alloc: Global,
        system: &System,
        domains: &[Domain],
        ticks: &[u32],
    ) -> Result<Channels, NoMemory>
        requires domains { AreDomainsOf system.now domains.now }
        requires ticks { AreBudgets system.now ticks.now }
        ensures { IfOk result (AreOpened system.now ticks.now) }
    {
        let infos = system.tables().channels.as_slice();
        let links = open_links(alloc, infos)?;
        let cells = open_cells(alloc, infos.len())?;
        let histories = open_histories(alloc, infos, ticks)?;
        let made = vec![in alloc; 0u32; domains.len()]?;
        let lists = open_lists(alloc, domains)?;
        Ok(Channels {
            links,
            cells,
            histories,
            ticks: made,
            lists,
            turn: 0,
        })
    }

    /// The histories of the channels, by rising number.
    pub fn into_histories(self) -> Vec<History>
        ensures items { result.items ≡ self.histories }
        ensures count { length result.items ≡ length self.links }
    {
        let Channels { histories, .. } = self;
        histories
    }

    /// It is this domain's turn, which makes a tick.
    pub fn begin_turn(&mut self, domain: u32)
        requires within { domain < length self.old.ticks }
        requires limit { get_or self.old.ticks domain 0 + 1 < 2 ^ 32 }
        ensures { self.new ≡ record self.old {
          ticks = set self.old.ticks domain (get_or self.old.ticks domain 0 + 1);
          ends = get_or self.old.lists domain [];
        } }
    {
        self.ticks[domain as usize] += 1;
        self.turn = domain as usize;
    }
}
