//! What of a listing its graph depends on, stored with the tree that was computed from it.

ghost use Rattle.std.specs.Prelude.{◌≡◌, ◌++◌, ◌∷◌, [], List, IsTrue, IfOk, IfSome, IfNone, OnOk, ◌↔◌};
ghost use Rattle.ospf_lsa.specs.declared.link.Link.{Link};
ghost use Rattle.ospf_graph.specs.SameGraph.{is_graph_kind};
ghost use Rattle.ospf_graph.specs.declared.edges.items.GraphItem.{GraphItem};
ghost use Rattle.ospf_graph.specs.EdgeLists.Items.{items_of, items_of_all, link_items, attached_items};
ghost use Rattle.ospf_graph.specs.EdgeLists.Listed.{advertisement_of, advertisements_of};

use ospf_base::{Kind, RouterId};
use ospf_lsa::{Attached, Link, LinkKind, Links, Listing, Lsa};
use std::alloc::{AllocError, Global};

/// The items of a graph, one after the other in the order of a listing: a router, then its links of
/// types 1 and 2; a network, then its attached routers.
#[derive(Clone, Copy, Debug, PartialEq, Eq)]
pub enum GraphItem {
    Router(RouterId),
    Link(Link),
    Network {
        id: u32,
        router: RouterId,
        mask: u32,
    },
    Attached(RouterId),
}

/// The items of a listing. `AllocError` where memory runs out.
pub fn items_in(alloc: Global, listing: &Listing) -> Result<Vec<GraphItem>, AllocError>
    ensures { IfOk result (λ items. items.items ≡ items_of_all (advertisements_of listing.now)) }
{
    let mut items = Vec::new(alloc);
    for lsa in listing.lsas() {
        push_items(lsa, &mut items)?;
    }
    Ok(items)
}

/// Whether these are exactly the items of a listing.
pub fn are_items_of(items: &[GraphItem], listing: &Listing) -> bool
    ensures { IsTrue result ↔ (items.now ≡ items_of_all (advertisements_of listing.now)) }
{
    let mut rest = items;
    for lsa in listing.lsas() {
        let Some(more) = after_lsa(rest, lsa) else {
            return false;
        };
        rest = more;
    }
    rest.is_empty()
}

// Adds the items of an LSA.
fn push_items(lsa: &Lsa, items: &mut Vec<GraphItem>) -> Result<(), AllocError>
    ensures { OnOk result (items.new.items ≡ items.old.items
        ++ items_of (advertisement_of lsa.now)) }
{
    let view = lsa.view();
    let key = view.key();
    match view.kind() {
        Kind::Router => {
            items.push(GraphItem::Router(key.router))?;
            push_links(view.links(), items)?;
            Ok(())
        }
        Kind::Network => {
            let (id, router, mask) = (key.id, key.router, view.mask());
            items.push(GraphItem::Network { id, router, mask })?;
            push_attached(view.attached(), items)?;
            Ok(())
        }
    }
}

// Adds links of the graph.
fn push_links(links: Links, items: &mut Vec<GraphItem>) -> Result<(), AllocError>
    ensures { OnOk result (items.new.items ≡ items.old.items ++ link_items links.entry) }
{
    for link in links {
        push_link(link, items)?;
    }
    Ok(())
}

// Adds a link, if it is part of the graph.
fn push_link(link: Link, items: &mut Vec<GraphItem>) -> Result<(), AllocError>
    ensures { OnOk result (items.new.items ≡ items.old.items ++ link_items (link ∷ [])) }
{
    if is_of_graph(link.kind) {
        items.push(GraphItem::Link(link))?;
    }
    Ok(())
}

// Whether links of a type are part of the graph.
fn is_of_graph(kind: LinkKind) -> bool
    ensures { result ≡ is_graph_kind kind }
{
    match kind {
        LinkKind::PointToPoint | LinkKind::Transit => true,
        LinkKind::Stub | LinkKind::Virtual => false,
    }
}

// Adds attached routers.
fn push_attached(attached: Attached, items: &mut Vec<GraphItem>) -> Result<(), AllocError>
    ensures { OnOk result (items.new.items ≡ items.old.items ++ attached_items attached.entry) }
{
    for router in attached {
        items.push(GraphItem::Attached(router))?;
    }
    Ok(())
}

// What follows the items of an LSA, if the list begins with those.
fn after_lsa<'a>(items: &'a [GraphItem], lsa: &Lsa) -> Option<&'a [GraphItem]>
    ensures some { IfSome result (λ rest. items.now ≡ items_of (advertisement_of lsa.now)
        ++ rest.now) }
    ensures none { IfNone result ((rest : List GraphItem) →
        items.now ≡ items_of (advertisement_of lsa.now) ++ rest → ⊥) }
{
    let view = lsa.view();
    let key = view.key();
    match view.kind() {
        Kind::Router => {
            let Some(rest) = after(items, GraphItem::Router(key.router)) else {
                return None;
            };
            after_links(rest, view.links())
        }
        Kind::Network => {
            let (id, router, mask) = (key.id, key.router, view.mask());
            let Some(rest) = after(items, GraphItem::Network { id, router, mask }) else {
                return None;
            };
            after_attached(rest, view.attached())
        }
    }
}

// What follows an item, if the list begins with it.
fn after<'a>(items: &'a [GraphItem], item: GraphItem) -> Option<&'a [GraphItem]>
    ensures some { IfSome result (λ rest. items.now ≡ (item ∷ []) ++ rest.now) }
    ensures none { IfNone result ((rest : List GraphItem) → items.now ≡ (item ∷ []) ++ rest → ⊥) }
{
    match items {
        [first, rest @ ..] if *first == item => Some(rest),
        _ => None,
    }
}

// What follows the items of links, if the list begins with those.
fn after_links<'a>(items: &'a [GraphItem], links: Links) -> Option<&'a [GraphItem]>
    ensures some { IfSome result (λ rest. items.now ≡ link_items links.entry ++ rest.now) }
    ensures none { IfNone result ((rest : List GraphItem) →
        items.now ≡ link_items links.entry ++ rest → ⊥) }
{
    let mut rest = items;
    for link in links {
        let Some(more) = after_link(rest, link) else {
            return None;
        };
        rest = more;
    }
    Some(rest)
}

// What follows a link, if the list begins with it or it is no part of the graph.
fn after_link<'a>(items: &'a [GraphItem], link: Link) -> Option<&'a [GraphItem]>
    ensures some { IfSome result (λ rest. items.now ≡ link_items (link ∷ []) ++ rest.now) }
    ensures none { IfNone result ((rest : List GraphItem) →
        items.now ≡ link_items (link ∷ []) ++ rest → ⊥) }
{
    if is_of_graph(link.kind) {
        after(items, GraphItem::Link(link))
    } else {
        Some(items)
    }
}

// What follows the items of attached routers, if the list begins with those.
fn after_attached<'a>(items: &'a [GraphItem], attached: Attached) -> Option<&'a [GraphItem]>
    ensures some { IfSome result (λ rest. items.now ≡ attached_items attached.entry ++ rest.now) }
    ensures none { IfNone result ((rest : List GraphItem) →
        items.now ≡ attached_items attached.entry ++ rest → ⊥) }
{
    let mut rest = items;
    for router in attached {
        let Some(more) = after(rest, GraphItem::Attached(router)) else {
            return None;
        };
        rest = more;
    }
    Some(rest)
}
