//! A request list and what names the LSAs of its entries, by which
//! most look-ups need not go over it.

ghost use Rattle.std.specs.Prelude.{◌≡◌, ◌+◌, ◌<◌, ◌≤◌, OnOk, OnErr, position, vec_len, vec_capacity};
ghost use Rattle.std.specs.HashSet.{contains, spare};
ghost use Rattle.ospf_neighbour.specs.Lists.{AreNamesOf, name_eq, name_of, name_of_key, request_put, requests_put};
ghost use Rattle.ospf_neighbour.specs.OneAKey.{is_of_one_lsa};

use crate::lists;
use ospf_base::{LsaKey, RouterId};
use ospf_lsa::LsaHeader;
use std::alloc::{AllocError, Global};
use std::collections::HashSet;
use std::marker::Model;

// What names the LSA of a header, whatever its LS type is.
#[derive(Clone, Copy, PartialEq, Eq, Hash)]
pub(crate) struct LsaName {
    kind: u8,
    id: u32,
    router: RouterId,
}

// Headers, one an LSA, in the order in which they were put. The list is long, and an LSA
// that is looked for is mostly not on it.
#[derive(Drop)]
pub(crate) struct Requests {
    entries: Vec<LsaHeader>,
    names: HashSet<LsaName>,
}

impl Model for Requests {
    ghost use Rattle.std.specs.Prelude.{List};
    ghost use Rattle.std.specs.HashSet.{contains};
    ghost use Rattle.ospf_lsa.specs.declared.header.LsaHeader.{LsaHeader};
    ghost use Rattle.ospf_neighbour.specs.Lists.{AreNamesOf, name_eq};
    ghost use Rattle.ospf_neighbour.specs.OneAKey.{AsksOnce};

    ghost Value = { List LsaHeader };

    ghost view = { λ r. r.entries.items };

    ghost invariant = { λ r. AreNamesOf (contains name_eq r.names) r.entries.items
        × AsksOnce r.entries.items };
}

impl Requests {
    ghost use Rattle.std.specs.Prelude.{◌≡◌, [], OnOk, OnErr, position};
    ghost use Rattle.std.specs.List.{list_any};
    ghost use Rattle.ospf_neighbour.specs.Lists.{is_header_of, request_of, requests_put, requests_without};
    ghost use Rattle.ospf_neighbour.specs.Neighbour.{is_empty};

    // An empty list.
    pub(crate) fn new(alloc: Global) -> Requests
        ensures { result ≡ [] }
    {
        Requests {
            entries: Vec::new(alloc),
            names: HashSet::new(alloc),
        }
    }

    // Its entries.
    pub(crate) fn entries(&self) -> &[LsaHeader]
        ensures { result.now ≡ self.now }
    {
        &self.entries
    }

    // Whether it has no entries.
    pub(crate) fn is_empty(&self) -> bool
        ensures { result ≡ is_empty self.now }
    {
        self.entries.is_empty()
    }

    // Whether an entry of a key is on the list.
    pub(crate) fn is_requested(&self, key: &LsaKey) -> bool
        ensures { result ≡ list_any (is_header_of key.now) self.now }
    {
        // Mostly nothing is requested: then the names, which lie elsewhere, are not looked at.
        if self.entries.is_empty() {
            return false;
        }
        self.names.contains(&name_of_key(key))
    }

    // The entry of a key.
    pub(crate) fn request_of(&self, key: &LsaKey) -> Option<LsaHeader>
        ensures { result ≡ request_of key.now self.now }
    {
        if self.is_requested(key) {
            lists::request_of(key, &self.entries)
        } else {
            None
        }
    }

    // The place of the entry of a key.
    fn place_of(&self, key: &LsaKey) -> Option<usize>
        ensures { result ≡ position (is_header_of key.now) self.now }
    {
        if self.is_requested(key) {
            lists::request_place(key, &self.entries)
        } else {
            None
        }
    }

    // Removes the entry of a key from the list. No memory is taken.
    pub(crate) fn remove(&mut self, key: &LsaKey)
        ensures { self.new ≡ requests_without key.now self.old }
    {
        if let Some(at) = self.place_of(key) {
            // It is the only one of its LSA.
            self.entries.remove(at);
            self.names.remove(&name_of_key(key));
        }
    }

    // Puts headers on the list, each in place of the entry of its LSA.
    //
    // `AllocError` where memory runs out; then the list is as it was.
    pub(crate) fn put(&mut self, headers: &[LsaHeader]) -> Result<(), AllocError>
        ensures ok { OnOk result (self.new ≡ requests_put headers.now self.old) }
        ensures err { OnErr result (self.new ≡ self.old) }
    {
        put_requests(headers, &mut self.entries, &mut self.names)
    }

    // Removes all entries from the list. No memory is taken.
    pub(crate) fn clear(&mut self)
        ensures { self.new ≡ [] }
    {
        self.entries.clear();
        self.names.clear();
    }
}

// Puts headers on a request list, each in place of the entry of its LSA.
//
// `AllocError` where memory runs out; then the list is as it was.
fn put_requests(
    headers: &[LsaHeader],
    all: &mut Vec<LsaHeader>,
    names: &mut HashSet<LsaName>,
) -> Result<(), AllocError>
    requires { AreNamesOf (contains name_eq names.old) all.old.items }
    ensures ok { OnOk result (all.new.items ≡ requests_put headers.now all.old.items) }
    ensures err { OnErr result (all.new.items ≡ all.old.items) }
    ensures names { AreNamesOf (contains name_eq names.new) all.new.items }
{
    // All growths come first.
    all.reserve(headers.len())?;
    names.reserve(headers.len())?;
    for header in headers {
        put_request(header, all, names)?;
    }
    Ok(())
}

// Puts a header on a request list, in place of the entry of its LSA.
//
// `AllocError` where there is no such entry, and no room.
fn put_request(
    header: &LsaHeader,
    all: &mut Vec<LsaHeader>,
    names: &mut HashSet<LsaName>,
) -> Result<(), AllocError>
    requires { AreNamesOf (contains name_eq names.old) all.old.items }
    ensures ok { OnOk result (all.new.items ≡ request_put header.now all.old.items) }
    ensures names { OnOk result (AreNamesOf (contains name_eq names.new) all.new.items) }
    ensures err { OnErr result (0 < spare names.old → vec_capacity all.old ≤ vec_len all.old) }
    // One place more at most, of the list and of the names.
    ensures longer { vec_len all.new ≤ vec_len all.old + 1 }
    ensures capacity { vec_capacity all.old ≤ vec_capacity all.new }
    ensures spare { spare names.old ≤ spare names.new + 1 }
{
    match place_of(header, all, names) {
        Some(at) => {
            all[at] = *header;
            Ok(())
        }
        None => {
            names.insert(name_of(header))?;
            all.push(*header)?;
            Ok(())
        }
    }
}

// The place of the entry of a header's LSA on a request list.
fn place_of(header: &LsaHeader, all: &[LsaHeader], names: &HashSet<LsaName>) -> Option<usize>
    requires { AreNamesOf (contains name_eq names.now) all.now }
    ensures { result ≡ position (is_of_one_lsa header.now) all.now }
{
    if names.contains(&name_of(header)) {
        all.iter().position(|entry| is_of_one_lsa(header, entry))
    } else {
        None
    }
}

// Whether two headers are of one LSA.
#[tactic(auto, unfolding(crate::specs::OneAKey::is_of_one_lsa))]
fn is_of_one_lsa(a: &LsaHeader, b: &LsaHeader) -> bool
    ensures { result ≡ is_of_one_lsa a.now b.now }
{
    a.kind == b.kind && a.id == b.id && a.router.0 == b.router.0
}

// What names a header's LSA.
fn name_of(header: &LsaHeader) -> LsaName
    ensures { result ≡ name_of header.now }
{
    LsaName {
        kind: header.kind,
        id: header.id,
        router: header.router,
    }
}

// What names a key's LSA.
fn name_of_key(key: &LsaKey) -> LsaName
    ensures { result ≡ name_of_key key.now }
{
    LsaName {
        kind: key.kind.ls_type(),
        id: key.id,
        router: key.router,
    }
}
