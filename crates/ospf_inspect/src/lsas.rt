//! The LSAs of a listing in words.

ghost use Rattle.std.specs.Prelude.{◌≡◌, ◌↔◌, IfOk, IsTrue, List, [], codes, false, string_bytes};
ghost use Rattle.std.specs.Fmt.{WritesOnOk};
ghost use Rattle.ospf_lsa.specs.Header.{header_of};
ghost use Rattle.ospf_lsa.specs.Lsa.{IsNetworkLsa, IsRouterLsa, instance_of};
ghost use Rattle.ospf_graph.specs.Advertisements.{Advertisement};
ghost use Rattle.ospf_graph.specs.declared.graph.Vertex.TheVariants as vertex;
ghost use Rattle.ospf_graph.specs.EdgeLists.Given.{StandsFor};
ghost use Rattle.ospf_graph.specs.EdgeLists.Listed.{advertisements_of};
ghost use Rattle.ospf_graph.specs.EdgeLists.Near.{AreEdgesAt};
ghost use Rattle.ospf_script.specs.Texts.{hexadecimal};
ghost use Rattle.ospf_inspect.specs.Lines.{AreLines};
ghost use Rattle.ospf_inspect.specs.Lsas.{AreJoinedBy, SaysOfAttached, SaysOfLink, SaysOfLsa, SaysOfNetwork, SaysOfRouter, flags_of, flags_text, letter_of, link_line, member_text, network_name_of, network_line, one_way, router_line, stub_text, unused, virtual_text, way_of};

use crate::drawing::Under;
use ospf_base::{Addr, Instance, Kind, RouterId};
use ospf_graph::edges::edges_at;
use ospf_graph::{Edge, Vertex, is_same};
use ospf_lsa::{Attached, Link, LinkKind, Links, Listing, Lsa, LsaView};
use ospf_script::FloorShown;
use std::alloc::{AllocError, Global};
use std::fmt::{self, Display, Formatter, Write};

// The marks of a link whose other end does not name its router, and of an LSA that is not used
// because another has its Link State ID.
const ONE_WAY: &str = " one-way";

const UNUSED: &str = " unused";

// Where the flags of a router-LSA stand (RFC 2328, appendix A.4.2), and those that are shown.
const FLAGS_AT: usize = 20;

const FLAGS: u8 = 15;

/// The LSAs of a listing in words, in their order: whose each is, its age, LS sequence number and
/// checksum, and below it a line for each link or attached router (RFC 2328, appendix A.4). A link
/// or an attached router is `one-way` where no edge of the graph leads there, so that no path goes
/// over it: the LSA at its other end does not name it back (section 16.1). The line of a router-LSA
/// ends with the letters of the flags that are set: B, E, V and W. A virtual link is `passed over`.
/// A network-LSA is `unused` where one of a larger Advertising Router has its Link State ID.
///
/// `AllocError` where memory runs out.
pub fn lsas_text(alloc: Global, listing: &Listing) -> Result<String, AllocError>
    ensures { IfOk result (λ text. AreLines (SaysOfLsa (advertisements_of listing.now)) listing.now
        (string_bytes text)) }
{
    let mut text = String::new(alloc);
    for lsa in listing.lsas() {
        text.push_str(&lsa_text(alloc, listing, lsa)?)?;
    }
    Ok(text)
}

// An LSA in words.
fn lsa_text(alloc: Global, listing: &Listing, lsa: &Lsa) -> Result<String, AllocError>
    ensures { IfOk result (λ text. SaysOfLsa (advertisements_of listing.now) lsa.now
        (string_bytes text)) }
{
    let view = lsa.view();
    match view.kind() {
        Kind::Router => router_text(alloc, listing, &view),
        Kind::Network => network_text(alloc, listing, &view),
    }
}

// What names the instance of an LSA, and its age.
#[derive(Clone, Copy)]
pub(crate) struct LsaShown {
    pub(crate) age: u16,
    pub(crate) instance: Instance,
}

/// As ` age 5 number 80000002 sum e02d`.
impl Display for LsaShown {
    ghost use Rattle.std.specs.Prelude.{Some};
    ghost use Rattle.ospf_inspect.specs.Lsas.{instance_text};

    ghost output = { λ shown. Some (instance_text shown.age shown.instance) };

    fn fmt<W: Write>(&self, f: &mut Formatter<W>) -> fmt::Result {
        let Instance { number, sum, .. } = self.instance;
        let (number, sum) = (FloorShown(number), Sum(sum));
        write!(f, " age {} number {number} sum {sum}", self.age)
    }
}

// A checksum, in four hexadecimal digits.
#[derive(Clone, Copy)]
pub(crate) struct Sum(pub(crate) u16);

/// As `e02d`.
impl Display for Sum {
    ghost use Rattle.std.specs.Prelude.{Some};
    ghost use Rattle.ospf_script.specs.Texts.{hexadecimal};

    ghost output = { λ sum. Some (hexadecimal 4 sum.0) };

    fn fmt<W: Write>(&self, f: &mut Formatter<W>) -> fmt::Result {
        write_sum(f, self.0)
    }
}

// A number in four hexadecimal digits.
fn write_sum<W: Write>(f: &mut Formatter<W>, sum: u16) -> fmt::Result
    ensures { WritesOnOk W.Write.write_str_gives f.old result (hexadecimal 4 sum) f.new }
{
    write!(f, "{sum:04x}")
}

// What names the instance of an LSA, and its age.
pub(crate) fn shown_of(lsa: &LsaView) -> LsaShown
    ensures age { result.age ≡ (header_of lsa.now).age }
    ensures instance { result.instance ≡ instance_of lsa.now }
{
    LsaShown {
        age: lsa.header().age.ticks(),
        instance: lsa.instance(),
    }
}

// A router-LSA in words.
fn router_text(alloc: Global, listing: &Listing, lsa: &LsaView) -> Result<String, AllocError>
    requires { IsRouterLsa lsa.now }
    ensures { IfOk result (λ text. SaysOfRouter (advertisements_of listing.now) lsa.now
        (string_bytes text)) }
{
    let router = lsa.key().router;
    let edges = edges_at(alloc, listing, Vertex::Router(router))?;
    let mut text = router_line(alloc, router, shown_of(lsa), flags_of(lsa))?;
    text.push_str(&links_text(alloc, &edges, router, lsa.links())?)?;
    Ok(text)
}

// The line of a router-LSA itself.
fn router_line(
    alloc: Global,
    router: RouterId,
    shown: LsaShown,
    flags: u8,
) -> Result<String, AllocError>
    ensures { IfOk result (λ line. string_bytes line
        ≡ router_line router shown.age shown.instance flags) }
{
    let line = format!(in alloc; "router {router}{shown}{}\n", FlagsShown(flags))?;
    Ok(line)
}

// The flags of a router-LSA.
pub(crate) fn flags_of(lsa: &LsaView) -> u8
    requires { IsRouterLsa lsa.now }
    ensures { result ≡ flags_of lsa.now }
{
    lsa.as_bytes()[FLAGS_AT]
}

// The flags of a router-LSA at the end of its line, where one is set.
#[derive(Clone, Copy)]
struct FlagsShown(u8);

/// As ` flags BE`.
impl Display for FlagsShown {
    ghost use Rattle.std.specs.Prelude.{Some};
    ghost use Rattle.ospf_inspect.specs.Lsas.{flags_text};

    ghost output = { λ flags. Some (flags_text flags.0) };

    fn fmt<W: Write>(&self, f: &mut Formatter<W>) -> fmt::Result {
        write_flags(f, self.0)
    }
}

// A space, the word and the letters, where a flag is set.
fn write_flags<W: Write>(f: &mut Formatter<W>, flags: u8) -> fmt::Result
    ensures { WritesOnOk W.Write.write_str_gives f.old result (flags_text flags) f.new }
{
    if flags & FLAGS == 0 {
        Ok(())
    } else {
        write!(f, " flags {}", Flags(flags))
    }
}

// The flags of a router-LSA, as the letters of those that are set.
#[derive(Clone, Copy)]
pub(crate) struct Flags(pub(crate) u8);

/// As `BE`.
impl Display for Flags {
    ghost use Rattle.std.specs.Prelude.{Some};
    ghost use Rattle.ospf_inspect.specs.Lsas.{flag_letters};

    ghost output = { λ flags. Some (flag_letters flags.0) };

    fn fmt<W: Write>(&self, f: &mut Formatter<W>) -> fmt::Result {
        write_flag(f, self.0, 1, "B")?;
        write_flag(f, self.0, 2, "E")?;
        write_flag(f, self.0, 4, "V")?;
        write_flag(f, self.0, 8, "W")
    }
}

// The letter of a flag, where it is set.
fn write_flag<W: Write>(f: &mut Formatter<W>, flags: u8, flag: u8, letter: &str) -> fmt::Result
    ensures { WritesOnOk W.Write.write_str_gives f.old result (letter_of flags flag letter.now)
        f.new }
{
    if flags & flag == 0 {
        Ok(())
    } else {
        f.write_str(letter)
    }
}

// The links of a router in words, by the edges that touch it.
fn links_text(
    alloc: Global,
    edges: &[Edge],
    router: RouterId,
    links: Links,
) -> Result<String, AllocError>
    ensures { (adverts : List Advertisement) → AreEdgesAt adverts (vertex.Router router) edges.now →
        IfOk result (λ text. AreLines (SaysOfLink adverts router) links.entry
        (string_bytes text)) }
{
    let mut text = String::new(alloc);
    for link in links {
        text.push_str(&link_text(alloc, edges, router, link)?)?;
    }
    Ok(text)
}

// A link of a router in words, by the edges that touch the router.
fn link_text(
    alloc: Global,
    edges: &[Edge],
    router: RouterId,
    link: Link,
) -> Result<String, AllocError>
    ensures { (adverts : List Advertisement) → AreEdgesAt adverts (vertex.Router router) edges.now →
        IfOk result (λ text. SaysOfLink adverts router link (string_bytes text)) }
{
    let from = Vertex::Router(router);
    match link.kind {
        LinkKind::PointToPoint => {
            let mark = one_way_unless(joins(edges, from, Vertex::Router(RouterId(link.id))));
            router_link_line(alloc, way_of(link), mark)
        }
        LinkKind::Transit => {
            let mark = one_way_unless(joins(edges, from, Vertex::Network(link.id)));
            network_link_line(alloc, way_of(link), mark)
        }
        LinkKind::Stub => stub_line(alloc, link),
        LinkKind::Virtual => virtual_line(alloc, RouterId(link.id)),
    }
}

// The line of a link to a router.
fn router_link_line(alloc: Global, way: LinkWay, mark: &str) -> Result<String, AllocError>
    ensures { IfOk result (λ line. string_bytes line ≡ link_line (codes "router") way mark.now) }
{
    let line = format!(in alloc; "  router {way}{mark}\n")?;
    Ok(line)
}

// The line of a link to a transit network.
fn network_link_line(alloc: Global, way: LinkWay, mark: &str) -> Result<String, AllocError>
    ensures { IfOk result (λ line. string_bytes line ≡ link_line (codes "network") way mark.now) }
{
    let line = format!(in alloc; "  network {way}{mark}\n")?;
    Ok(line)
}

// Where a link of type 1 or 2 leads, the address that it is from, and its cost.
#[derive(Clone, Copy)]
pub(crate) struct LinkWay {
    to: Addr,
    from: Addr,
    cost: u16,
}

/// As `2.2.2.2 from 10.0.0.1 cost 10`.
impl Display for LinkWay {
    ghost use Rattle.std.specs.Prelude.{Some};
    ghost use Rattle.ospf_inspect.specs.Lsas.{way_text};

    ghost output = { λ way. Some (way_text way) };

    fn fmt<W: Write>(&self, f: &mut Formatter<W>) -> fmt::Result {
        write!(f, "{} from {} cost {}", self.to, self.from, self.cost)
    }
}

// Where a link leads.
fn way_of(link: Link) -> LinkWay
    ensures { result ≡ way_of link }
{
    LinkWay {
        to: Addr(link.id),
        from: Addr(link.link_data),
        cost: link.metric,
    }
}

// The line of a stub network.
fn stub_line(alloc: Global, link: Link) -> Result<String, AllocError>
    ensures { IfOk result (λ line. string_bytes line ≡ stub_text link) }
{
    let prefix = Under {
        address: link.id,
        mask: link.link_data,
    };
    let line = format!(in alloc; "  stub {prefix} cost {}\n", link.metric)?;
    Ok(line)
}

// The line of a virtual link.
fn virtual_line(alloc: Global, to: RouterId) -> Result<String, AllocError>
    ensures { IfOk result (λ line. string_bytes line ≡ virtual_text to.0) }
{
    let line = format!(in alloc; "  virtual {to} passed over\n")?;
    Ok(line)
}

// Whether one of the edges leads from one vertex to the other.
pub(crate) fn joins(edges: &[Edge], from: Vertex, to: Vertex) -> bool
    ensures { IsTrue result ↔ AreJoinedBy edges.now from to }
{
    edges
        .iter()
        .any(|edge| is_same(edge.from, from) && is_same(edge.to, to))
}

// The mark of what is there both ways, or one way alone.
fn one_way_unless(both_ways: bool) -> &'static str
    ensures both { IsTrue both_ways → result.now ≡ [] }
    ensures one { both_ways ≡ false → result.now ≡ one_way }
{
    if both_ways { "" } else { ONE_WAY }
}

// A network-LSA in words.
fn network_text(alloc: Global, listing: &Listing, lsa: &LsaView) -> Result<String, AllocError>
    requires { IsNetworkLsa lsa.now }
    ensures { IfOk result (λ text. SaysOfNetwork (advertisements_of listing.now) lsa.now
        (string_bytes text)) }
{
    let key = lsa.key();
    let edges = edges_at(alloc, listing, Vertex::Network(key.id))?;
    let mark = unused_unless(stands_for(listing, key.id, key.router));
    let mut text = network_line(alloc, name_of(lsa), shown_of(lsa), mark)?;
    text.push_str(&attached_text(alloc, &edges, key.id, lsa.attached())?)?;
    Ok(text)
}

// The line of a network-LSA itself.
fn network_line(
    alloc: Global,
    name: NetworkName,
    shown: LsaShown,
    mark: &str,
) -> Result<String, AllocError>
    ensures { IfOk result (λ line. string_bytes line
        ≡ network_line name shown.age shown.instance mark.now) }
{
    let line = format!(in alloc; "network {name}{shown}{mark}\n")?;
    Ok(line)
}

// What names a network-LSA.
#[derive(Clone, Copy)]
pub(crate) struct NetworkName {
    pub(crate) id: Addr,
    pub(crate) mask: u32,
    pub(crate) router: RouterId,
}

/// As `10.1.0.0/24 of 10.1.0.2 by 2.2.2.2`.
impl Display for NetworkName {
    ghost use Rattle.std.specs.Prelude.{Some};
    ghost use Rattle.ospf_inspect.specs.Lsas.{network_name_text};

    ghost output = { λ name. Some (network_name_text name) };

    fn fmt<W: Write>(&self, f: &mut Formatter<W>) -> fmt::Result {
        let prefix = Under {
            address: self.id.0,
            mask: self.mask,
        };
        write!(f, "{prefix} of {} by {}", self.id, self.router)
    }
}

// The name of a network-LSA.
pub(crate) fn name_of(lsa: &LsaView) -> NetworkName
    requires { IsNetworkLsa lsa.now }
    ensures { result ≡ network_name_of lsa.now }
{
    let key = lsa.key();
    NetworkName {
        id: Addr(key.id),
        mask: lsa.mask(),
        router: key.router,
    }
}

// Whether the network-LSA of a router is the one that is used for its Link State ID.
pub(crate) fn stands_for(listing: &Listing, id: u32, router: RouterId) -> bool
    ensures { IsTrue result ↔ StandsFor (advertisements_of listing.now) id router }
{
    match listing.network(id) {
        Some(lsa) => lsa.view().key().router.0 <= router.0,
        None => true,
    }
}

// The mark of an LSA that is used, or not.
fn unused_unless(used: bool) -> &'static str
    ensures used { IsTrue used → result.now ≡ [] }
    ensures other { used ≡ false → result.now ≡ unused }
{
    if used { "" } else { UNUSED }
}

// The routers that a network names, in words, by the edges that touch it.
fn attached_text(
    alloc: Global,
    edges: &[Edge],
    network: u32,
    attached: Attached,
) -> Result<String, AllocError>
    ensures { (adverts : List Advertisement) →
        AreEdgesAt adverts (vertex.Network network) edges.now →
        IfOk result (λ text. AreLines (SaysOfAttached adverts network) attached.entry
        (string_bytes text)) }
{
    let mut text = String::new(alloc);
    for router in attached {
        text.push_str(&member_text(alloc, edges, network, router)?)?;
    }
    Ok(text)
}

// A router that a network names, in words, by the edges that touch the network.
fn member_text(
    alloc: Global,
    edges: &[Edge],
    network: u32,
    router: RouterId,
) -> Result<String, AllocError>
    ensures { (adverts : List Advertisement) →
        AreEdgesAt adverts (vertex.Network network) edges.now →
        IfOk result (λ text. SaysOfAttached adverts network router (string_bytes text)) }
{
    let both_ways = joins(edges, Vertex::Network(network), Vertex::Router(router));
    member_line(alloc, router, one_way_unless(both_ways))
}

// The line of a router that a network names.
fn member_line(alloc: Global, router: RouterId, mark: &str) -> Result<String, AllocError>
    ensures { IfOk result (λ line. string_bytes line ≡ member_text router mark.now) }
{
    let line = format!(in alloc; "  router {router}{mark}\n")?;
    Ok(line)
}
