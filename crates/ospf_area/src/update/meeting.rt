//! What an LSA of an Update does, and a header of an Acknowledgment.

ghost use Rattle.std.specs.Prelude.{◌≡◌, ◌==◌, ◌++◌, ◌∷◌, [], IfOk, None, OnOk, Some, option_and_then, slice_get};
ghost use Rattle.ospf_base.specs.Constants.{max_age};
ghost use Rattle.ospf_lsa.specs.Header.{key_of_header};
ghost use Rattle.ospf_lsdb.specs.Database.{entry_of};
ghost use Rattle.ospf_lsa.specs.Header.{header_of};
ghost use Rattle.ospf_lsa.specs.Lsa.{instance_of, key_of};
ghost use Rattle.ospf_area.specs.Flooding.{flooded_back, flooding_updates, released};
ghost use Rattle.ospf_area.specs.Numbers.{marked};
ghost use Rattle.ospf_area.specs.Acting.{Becomes};
ghost use Rattle.ospf_area.specs.Updates.Meets.{InstallsIn, Stores, rule_met, heard_by, Admits, first_dd_on, duplicated, replied, reply_out, reply_to, restarted, MeetsRule, MeetsLsa, named_by, header_met};
ghost use Rattle.ospf_area.specs.Sending.{and_sends, context_of, sent_lsa, to_address, update_out, way_out};
ghost use Rattle.ospf_area.specs.Standing.{acknowledging, answer_at};
ghost use Rattle.ospf_flood.specs.declared.acknowledgement.AcknowledgementCase.TheVariants.{Expired};

use crate::{
    AdjacencyChange, Area, AreaLink, Flooded, Outbox, Outputs, PacketSource, RouterContext,
    acknowledge_by, answer_at, change_at, context_of, count_number, description_body, flood,
    is_awaited, is_requested, is_self_originated, is_taken, mark, release, send_lsa, sent_lsa,
    some_link_loading, to_address, was_sent,
};
use ospf_base::{Instance, LsaKey, MAX_AGE};
use ospf_exchange::beginning;
use ospf_flood::{
    AcknowledgementCase, LsaRule, case_of_newer, case_of_same, is_sent_back, lsa_rule,
};
use ospf_lsa::{Lsa, LsaHeader, LsaView, Recency, newer};
use ospf_lsdb::EntryView;
use std::alloc::{AllocError, Global};

/// Takes a header of an Acknowledgment from the neighbour of the origin, which is in Exchange or
/// above (RFC 2328, section 13.7). No memory is taken.
pub fn on_header(area: &mut Area, from: PacketSource, header: &LsaHeader)
    ensures { area.new ≡ header_met from header.now area.old }
{
    if let Some(instance) = named_in(area, header) {
        let tick = area.tick;
        change_at(
            &mut area.links,
            from,
            AdjacencyChange::Acknowledges(instance),
            tick,
        );
    }
}

/// Stores an LSA and floods it (section 13, step 5): its old copy leaves all retransmission lists,
/// then it is flooded, then it takes the old copy's place. `from` says where it came from;
/// without it, it is the router's own.
///
/// `AllocError` when memory runs out; then the router must be stopped.
pub fn store(
    area: &mut Area,
    lsa: Lsa,
    from: Option<PacketSource>,
    out: &mut Outputs,
    alloc: Global,
) -> Result<Flooded, AllocError>
    ensures after { OnOk result (Stores lsa from area.old area.new) }
    ensures back { IfOk result (λ f. f.back
        ≡ flooded_back (key_of lsa) (header_of lsa) from (released (key_of lsa) area.old.links)) }
    ensures sent { OnOk result (out.new ≡ and_sends out.old
        (flooding_updates (context_of area.old) lsa from (released (key_of lsa) area.old.links))) }
{
    let own = context_of(area);
    let key = lsa.view().key();
    let header = lsa.view().header();
    // (13, step 5c) Before the flood, which lists the new instance.
    release_in(area, &key);
    // (13, step 5b)
    let flooded = flood(&mut area.links, &lsa.view(), from, own, out, alloc)?;
    // (13, step 5d)
    install_in(area, lsa, from.is_some())?;
    mark_in(area, key, flooded.anywhere)?;
    count_number(area, key, &header)?;
    Ok(flooded)
}

/// Which rule an LSA of an Update meets (section 13), if its sender is in
/// Exchange or above. No memory is taken.
pub fn rule_met(area: &Area, from: PacketSource, lsa: &LsaView) -> Option<LsaRule>
    ensures { result ≡ rule_met area.now from lsa.now }
{
    if !is_taken(&area.links, from) {
        return None;
    }
    let key = lsa.key();
    let header = lsa.header();
    let loading = asks_who_loads(&header) && some_link_loading(&area.links);
    let requested = is_requested(&area.links, from, &key);
    let copy = area.database.get(&key);
    Some(lsa_rule(&header, copy, loading, requested, area.tick))
}

/// BadLSReq of the neighbour that sent the Update, which is in Exchange or above: the adjacency
/// with it restarts (RFC 2328, section 13, step 6, and section 10.3).
///
/// `AllocError` when memory runs out; then the router must be stopped.
pub(crate) fn restart(
    area: &mut Area,
    from: PacketSource,
    out: &mut Outputs,
    alloc: Global,
) -> Result<(), AllocError>
    ensures { OnOk result (Becomes (restarted from area.old)
        (and_sends out.old (first_dd_on (context_of area.old) from area.old.next_dd
        (slice_get area.old.links from.link))) out.new area.new) }
{
    let own = context_of(area);
    let number = area.next_dd;
    send_first_dd(&area.links, own, from, number, out, alloc)?;
    change_at(
        &mut area.links,
        from,
        AdjacencyChange::Restarts(number),
        own.tick,
    );
    area.next_dd = number.wrapping_add(1);
    Ok(())
}

/// Processes an LSA of an Update from the neighbour that sent it (section 13).
///
/// `AllocError` when memory runs out; then the router must be stopped.
pub fn on_lsa(
    area: &mut Area,
    from: PacketSource,
    lsa: &LsaView,
    out: &mut Outputs,
    alloc: Global,
) -> Result<(), AllocError>
    ensures { OnOk result (MeetsLsa from lsa.now area.old out.old out.new area.new) }
{
    let rule = rule_met(area, from, lsa);
    follow(rule, area, from, lsa, out, alloc)
}

/// Applies a rule to an LSA of an Update from the neighbour that sent it (section 13).
///
/// `AllocError` when memory runs out; then the router must be stopped.
pub(crate) fn follow(
    rule: Option<LsaRule>,
    area: &mut Area,
    from: PacketSource,
    lsa: &LsaView,
    out: &mut Outputs,
    alloc: Global,
) -> Result<(), AllocError>
    ensures { OnOk result (MeetsRule rule from lsa.now area.old out.old out.new area.new) }
{
    match rule {
        None => Ok(()),
        // (13, step 4)
        Some(LsaRule::AcknowledgesExpired) => on_expired(area, from, lsa, out),
        // (13, step 5a)
        Some(LsaRule::TooSoon) => Ok(()),
        // (13, step 5)
        Some(LsaRule::Installs) => install_newer(area, from, lsa, out, alloc),
        // (13, step 6)
        Some(LsaRule::BadRequest) => restart(area, from, out, alloc),
        // (13, step 7)
        Some(LsaRule::Duplicate) => on_same(area, from, lsa),
        // (13, step 8)
        Some(LsaRule::Stale) => reply(area, from, lsa.key(), out, alloc),
    }
}

fn named_in(area: &Area, header: &LsaHeader) -> Option<Instance>
    ensures { result ≡ named_by header.now
        (option_and_then (entry_of area.now.database) (key_of_header header.now)) }
{
    let key = header.key()?;
    named_by(header, area.database.get(&key))
}

// The instance that an acknowledged header names.
fn named_by(header: &LsaHeader, copy: Option<EntryView<'_>>) -> Option<Instance>
    ensures { result ≡ named_by header.now copy.entry }
{
    let copy = copy?;
    match newer(header, &copy.header()) {
        Recency::Same => Some(copy.instance()),
        Recency::Newer | Recency::Older => None,
    }
}

fn release_in(area: &mut Area, key: &LsaKey)
    ensures { area.new ≡ record area.old { links = released key.now area.old.links } }
{
    release(&mut area.links, key);
}

fn install_in(area: &mut Area, lsa: Lsa, by_flooding: bool) -> Result<(), AllocError>
    ensures { OnOk result (InstallsIn lsa by_flooding area.old area.new) }
{
    area.database.install(lsa, area.tick, by_flooding)
}

fn mark_in(area: &mut Area, key: LsaKey, went: bool) -> Result<(), AllocError>
    ensures { OnOk result (area.new ≡ record area.old { sent = marked key went area.old.sent }) }
{
    mark(&mut area.sent, key, went)
}

// Whether the rule of an LSA depends on who loads: the neighbours are looked at for no other.
fn asks_who_loads(header: &LsaHeader) -> bool
    ensures { result ≡ (header.now.age == max_age) }
{
    header.age.ticks() == MAX_AGE
}

// The first Database Description of an exchange, to the neighbour of the origin.
fn send_first_dd(
    links: &[AreaLink],
    own: RouterContext,
    from: PacketSource,
    number: u32,
    out: &mut Outputs,
    alloc: Global,
) -> Result<(), AllocError>
    ensures { OnOk result (out.new ≡ and_sends out.old
        (first_dd_on own from number (slice_get links.now from.link))) }
{
    match links.get(from.link) {
        Some(link) => send_first_dd_on(link, own, from, number, out, alloc),
        None => Ok(()),
    }
}

fn send_first_dd_on(
    link: &AreaLink,
    own: RouterContext,
    from: PacketSource,
    number: u32,
    out: &mut Outputs,
    alloc: Global,
) -> Result<(), AllocError>
    ensures { OnOk result (out.new ≡ and_sends out.old
        (first_dd_on own from number (Some link.now))) }
{
    let mut outbox = Outbox::new(number, alloc);
    let first = beginning(number, own.tick);
    let body = description_body(link.settings.mtu, first, Vec::new(alloc));
    outbox.put(to_address(&link.iface, from.address), body)?;
    outbox.send_all(out, own, from.link, &link.iface)
}

fn on_expired(
    area: &mut Area,
    from: PacketSource,
    lsa: &LsaView,
    out: &mut Outputs,
) -> Result<(), AllocError>
    ensures { OnOk result (Becomes (acknowledging (answer_at Expired from area.old.links) from
        (header_of lsa.now) area.old) (record out.old {
          taken = out.old.taken ++ instance_of lsa.now ∷ [];
        }) out.new area.new) }
{
    let answer = answer_at(&area.links, AcknowledgementCase::Expired, from);
    acknowledge_by(area, answer, from, &lsa.header())?;
    take(out, lsa.instance())
}

fn take(out: &mut Outputs, instance: Instance) -> Result<(), AllocError>
    ensures { OnOk result
        (out.new ≡ record out.old { taken = out.old.taken ++ instance ∷ [] }) }
{
    out.taken.push(instance)?;
    Ok(())
}

fn install_newer(
    area: &mut Area,
    from: PacketSource,
    lsa: &LsaView,
    out: &mut Outputs,
    alloc: Global,
) -> Result<(), AllocError>
    ensures { OnOk result (Admits from lsa.now area.old out.old out.new area.new) }
{
    let Ok(copy) = Lsa::copy(alloc, lsa) else {
        return Err(AllocError);
    };
    // (13, steps 5b to 5d)
    let flooded = store(area, copy, Some(from), out, alloc)?;
    // (13, step 5e)
    let answer = answer_at(&area.links, case_of_newer(flooded.back), from);
    acknowledge_by(area, answer, from, &lsa.header())?;
    // (13, step 5f)
    hear(area, lsa.key())?;
    take(out, lsa.instance())
}

fn hear(area: &mut Area, key: LsaKey) -> Result<(), AllocError>
    ensures { OnOk result (area.new ≡ heard_by key area.old) }
{
    if is_self_originated(area.router, &area.links, &key) {
        area.heard.push(key)?;
    }
    Ok(())
}

fn on_same(area: &mut Area, from: PacketSource, lsa: &LsaView) -> Result<(), AllocError>
    ensures { OnOk result (area.new ≡ duplicated from lsa.now area.old) }
{
    // (13, step 7a)
    let instance = lsa.instance();
    let implied = is_awaited(&area.links, from, &instance);
    let answer = answer_at(&area.links, case_of_same(implied), from);
    let tick = area.tick;
    change_at(
        &mut area.links,
        from,
        AdjacencyChange::Acknowledges(instance),
        tick,
    );
    // (13, step 7b)
    acknowledge_by(area, answer, from, &lsa.header())
}

fn reply(
    area: &mut Area,
    from: PacketSource,
    key: LsaKey,
    out: &mut Outputs,
    alloc: Global,
) -> Result<(), AllocError>
    ensures { OnOk result (Becomes (replied (reply_to area.old key) from key area.old)
        (and_sends out.old (reply_out (reply_to area.old key) from area.old)) out.new area.new) }
{
    let Some(copy) = reply_to(area, &key, alloc)? else {
        return Ok(());
    };
    let own = context_of(area);
    send_back(&area.links, own, from, &copy.view(), out, alloc)?;
    let instance = copy.view().instance();
    change_at(
        &mut area.links,
        from,
        AdjacencyChange::IsSent(instance),
        own.tick,
    );
    mark(&mut area.sent, key, true)
}

// The copy that goes back to the sender of an older LSA.
fn reply_to(area: &Area, key: &LsaKey, alloc: Global) -> Result<Option<Lsa>, AllocError>
    ensures { IfOk result (λ copy. copy ≡ reply_to area.now key.now) }
{
    let Some(copy) = area.database.get(key) else {
        return Ok(None);
    };
    if !is_sent_back(&copy, was_sent(&area.sent, key)) {
        return Ok(None);
    }
    match copy.copy(alloc) {
        Ok(lsa) => Ok(Some(lsa)),
        Err(_) => Err(AllocError),
    }
}

// Sends an LSA to the neighbour of the origin.
fn send_back(
    links: &[AreaLink],
    own: RouterContext,
    from: PacketSource,
    lsa: &LsaView,
    out: &mut Outputs,
    alloc: Global,
) -> Result<(), AllocError>
    ensures { OnOk result (out.new ≡ and_sends out.old
        (elim (slice_get links.now from.link) [
          | None ↦ []
          | Some link ↦ update_out own (way_out from.link link.iface
              (to_address link.iface from.address))
              (sent_lsa link.settings.transmit_delay lsa.now ∷ [])
        ])) }
{
    match links.get(from.link) {
        Some(link) => send_back_on(link, own, from, lsa, out, alloc),
        None => Ok(()),
    }
}

fn send_back_on(
    link: &AreaLink,
    own: RouterContext,
    from: PacketSource,
    lsa: &LsaView,
    out: &mut Outputs,
    alloc: Global,
) -> Result<(), AllocError>
    ensures { OnOk result (out.new ≡ and_sends out.old
        (update_out own
        (way_out from.link link.now.iface (to_address link.now.iface from.address))
        (sent_lsa link.now.settings.transmit_delay lsa.now ∷ []))) }
{
    let mut outbox = Outbox::new(0, alloc);
    let copy = sent_lsa(link.settings, lsa, alloc)?;
    send_lsa(copy, to_address(&link.iface, from.address), &mut outbox)?;
    outbox.send_all(out, own, from.link, &link.iface)
}
