//! Editing a table by changes, in one pass.

ghost use Rattle.std.specs.Prelude.{◌≡◌, ◌≤◌, ◌<◌, ◌+◌, ◌++◌, ◌∷◌, ◌↔◌, [], All, AllPairs, IfOk, IsTrue, length, vec_len, vec_capacity};
ghost use Rattle.std.specs.VecDeque.{deque_len};
ghost use Rattle.ospf_base.specs.Prefixes.{IsPrefixBefore};
ghost use Rattle.ospf_graph.specs.Routes.{IsRouteBefore};
ghost use Rattle.ospf_spf.specs.Changes.{edited, FirstIs, IsChangeBefore, IsMoved, IsParted, PutsHops, put_of};
ghost use Rattle.ospf_spf.specs.Table.{IsInOrder};

use crate::changes::{Change, copy_changes, is_before};
use crate::routes::is_same_prefix;
use crate::table::RouteTable;
use ospf_base::Prefix;
use ospf_graph::Route;
use std::alloc::{AllocError, Global};
use std::collections::VecDeque;
use std::marker::Model;
use std::mem::replace;

/// Changes with all the memory that an edit of a table by them needs.
#[derive(Debug, Drop)]
pub struct Edit {
    changes: Vec<Change>,
    room: Vec<Route>,
    alloc: Global,
}

impl Model for Edit {
    ghost use Rattle.std.specs.Prelude.{◌≡◌, [], All, AllPairs, vec_capacity};
    ghost use Rattle.ospf_spf.specs.Changes.{IsChangeBefore, PlannedEdit, PutsHops};

    ghost Value = { PlannedEdit };

    ghost view = { λ e. record { changes = e.changes.items; room = vec_capacity e.room } };

    ghost invariant = { λ e. (e.room.items ≡ []) × AllPairs IsChangeBefore e.changes.items
        × All PutsHops e.changes.items };
}

impl Edit {
    ghost use Rattle.std.specs.Prelude.{◌≡◌, ◌≤◌, ◌+◌, All, AllPairs, IfOk, length};
    ghost use Rattle.ospf_spf.specs.Changes.{IsChangeBefore, PutsHops};

    /// An edit by these changes, which are in the order of tables, of tables that have at
    /// most as many routes as this one.
    ///
    /// `AllocError` where memory runs out.
    pub fn new(alloc: Global, table: &RouteTable, changes: &[Change]) -> Result<Edit, AllocError>
        requires in_order { AllPairs IsChangeBefore changes.now }
        requires have_hops { All PutsHops changes.now }
        ensures changes { IfOk result (λ edit. edit.changes ≡ changes.now) }
        ensures room { IfOk result (λ edit. length table.now + length changes.now ≤ edit.room) }
    {
        let changes = copy_changes(alloc, changes)?;
        let count = table
            .routes()
            .len()
            .checked_add(changes.len())
            .ok_or(AllocError)?;
        let room = Vec::with_capacity(alloc, count)?;
        Ok(Edit {
            changes,
            room,
            alloc,
        })
    }

    /// How many routes the edited table may have.
    pub fn room(&self) -> usize
        ensures { result ≡ self.now.room }
    {
        self.room.capacity()
    }
}

impl RouteTable {
    ghost use Rattle.std.specs.Prelude.{◌≡◌, ◌≤◌, ◌+◌, All, AllPairs, IfOk, OnOk, OnErr, length};
    ghost use Rattle.ospf_spf.specs.Changes.{edited, IsChangeBefore, PutsHops};

    /// Makes the changes of an edit, in one pass over the table. It takes no memory.
    pub fn make(&mut self, edit: Edit)
        requires { length self.old + length edit.changes ≤ edit.room }
        ensures { self.new ≡ edited self.old edit.changes }
    {
        let Edit {
            changes,
            room,
            alloc,
        } = edit;
        let table = replace(self, RouteTable::empty(alloc));
        *self = RouteTable::of_routes(merged(table.into_routes(), changes, room));
    }

    /// Makes changes, which are in the order of tables, in one pass over the table.
    ///
    /// `AllocError` where memory runs out; then the table is as it was.
    pub fn edit(&mut self, alloc: Global, changes: &[Change]) -> Result<(), AllocError>
        requires in_order { AllPairs IsChangeBefore changes.now }
        requires have_hops { All PutsHops changes.now }
        ensures done { OnOk result (self.new ≡ edited self.old changes.now) }
        ensures refused { OnErr result (self.new ≡ self.old) }
    {
        let edit = Edit::new(alloc, self, changes)?;
        self.make(edit);
        Ok(())
    }
}

// The routes after the changes. There is room for them.
fn merged(routes: Vec<Route>, changes: Vec<Change>, room: Vec<Route>) -> Vec<Route>
    // The routes and the changes are in order, and there is empty room for both.
    requires table { IsInOrder routes.items }
    requires changes { AllPairs IsChangeBefore changes.items × All PutsHops changes.items }
    requires room { (room.items ≡ []) × (length routes.items + length changes.items
        ≤ vec_capacity room) }
    // The routes are the result of the changes, and in order.
    ensures edited { result.items ≡ edited routes.items changes.items }
    ensures table { IsInOrder result.items }
{
    let mut left = VecDeque::from_vec(routes);
    let mut made = room;
    let mut changes = VecDeque::from_vec(changes);
    while let Some(change) = changes.pop_front() {
        part(&mut left, change.prefix(), &mut made);
        put(change, &mut made);
    }
    match made.append(&mut left.into_vec()) {
        Ok(()) => made,
        Err(_) => unreachable!(),
    }
}

// Moves the routes before the prefix, and leaves out the one to it.
fn part(left: &mut VecDeque<Route>, prefix: Prefix, made: &mut Vec<Route>)
    // The routes that are left are in order, and there is room for them.
    requires order { AllPairs IsRouteBefore left.old.items }
    requires room { deque_len left.old + vec_len made.old ≤ vec_capacity made.old }
    // Those before the prefix are moved, the one to it is left out, and there is room for the rest.
    ensures parted { IsParted prefix left.old.items made.old.items left.new.items made.new.items }
    ensures len { deque_len left.new + vec_len made.new ≤ deque_len left.old + vec_len made.old }
    ensures room { vec_capacity made.old ≤ vec_capacity made.new }
{
    move_before(left, prefix, made);
    if is_first_to(left, prefix) {
        let _route = left.pop_front();
    }
}

// Moves the routes before the prefix.
fn move_before(left: &mut VecDeque<Route>, prefix: Prefix, made: &mut Vec<Route>)
    requires { deque_len left.old + vec_len made.old ≤ vec_capacity made.old }
    // The routes at the front that are before the prefix are moved, up to the first other one.
    ensures moved { IsMoved prefix left.old.items made.old.items left.new.items made.new.items }
    ensures first { FirstIs IsPrefixBefore left.new.items prefix → ⊥ }
    // None is lost, and there is room for the rest.
    ensures len { deque_len left.new + vec_len made.new ≡ deque_len left.old + vec_len made.old }
    ensures room { vec_capacity made.old ≤ vec_capacity made.new }
{
    while is_first_before(left, prefix) {
        match left.pop_front() {
            Some(route) => push_in_room(made, route),
            None => unreachable!(),
        }
    }
}

// Whether the first route that is left is before the prefix.
fn is_first_before(left: &VecDeque<Route>, prefix: Prefix) -> bool
    ensures { IsTrue result ↔ FirstIs IsPrefixBefore left.now.items prefix }
{
    match left.front() {
        Some(route) => is_before(route.prefix, prefix),
        None => false,
    }
}

// Puts a route at the end, where there is room.
fn push_in_room(made: &mut Vec<Route>, route: Route)
    requires { vec_len made.old < vec_capacity made.old }
    ensures items { made.new.items ≡ made.old.items ++ route ∷ [] }
    ensures len { vec_len made.new ≡ vec_len made.old + 1 }
    ensures room { vec_capacity made.old ≤ vec_capacity made.new }
{
    match made.push(route) {
        Ok(()) => {}
        Err(_) => unreachable!(),
    }
}

// Whether the first route that is left is to the prefix.
fn is_first_to(left: &VecDeque<Route>, prefix: Prefix) -> bool
    ensures { IsTrue result ↔ FirstIs (λ p q. p ≡ q) left.now.items prefix }
{
    match left.front() {
        Some(route) => is_same_prefix(route.prefix, prefix),
        None => false,
    }
}

// Puts the route of a change at the end, if it has one.
fn put(change: Change, made: &mut Vec<Route>)
    requires { vec_len made.old < vec_capacity made.old }
    ensures items { made.new.items ≡ made.old.items ++ put_of change }
    ensures len { vec_len made.new ≤ vec_len made.old + 1 }
    ensures room { vec_capacity made.old ≤ vec_capacity made.new }
{
    match change {
        Change::Put(route) => push_in_room(made, route),
        Change::Gone(_) => {}
    }
}
