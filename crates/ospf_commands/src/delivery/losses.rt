//! Deliveries that are lost at random.

ghost use Rattle.std.specs.Prelude.{◌≡◌, ◌++◌, [], IfOk, OnOk};
ghost use Rattle.ospf_commands.specs.Deliveries.Losses.{is_lost, is_network_of, kept_offer, kept_offers, lose_somewhere, loses_at, loses_on};

use ospf_base::{Addr, mask_of};
use ospf_config::InterfaceAddress;
use ospf_world::{Slot, WorldEvent, network_of};
use rand_core::utils::NextWord;
use rand_pcg::Lcg64Xsh32;
use std::alloc::{AllocError, Global};

/// A percentage of deliveries that are lost at random: on all networks, or on the one with an
/// address.
#[derive(Drop)]
pub struct Losses {
    pub percent: u8,
    /// The generator of random numbers.
    pub generator: Lcg64Xsh32,
    /// An address of the network with the losses, if only one has them.
    pub network: Option<Addr>,
}

impl Losses {
    ghost use Rattle.std.specs.Prelude.{◌≡◌, IfOk, OnErr};
    ghost use Rattle.ospf_commands.specs.Deliveries.Losses.{judged, kept_from, losses_of};

    /// This percentage is lost, all from a hundred on, each by a word of the generator of this
    /// number. With an address, only what is sent on its network can be lost: no other delivery
    /// draws a word.
    pub fn new(percent: u8, number: u64, network: Option<Addr>) -> Losses
        ensures { result ≡ losses_of percent number network }
    {
        Losses {
            percent,
            generator: Lcg64Xsh32::new(number, 0),
            network,
        }
    }

    /// Returns the deliveries, of what an interface with this address sent, that are not lost.
    ///
    /// `AllocError` if memory runs out: then no word is drawn.
    pub(crate) fn kept_from(
        &mut self,
        from: Option<InterfaceAddress>,
        offers: Vec<WorldEvent>,
        alloc: Global,
    ) -> Result<Vec<WorldEvent>, AllocError>
        ensures kept { IfOk result (λ kept. (kept.items, self.new)
            ≡ kept_from self.old from offers.items) }
        ensures err { OnErr result (self.new ≡ self.old) }
    {
        if loses_on(self.network, from) {
            self.judge(&offers, alloc)
        } else {
            Ok(offers)
        }
    }

    // Returns those of these deliveries that are not lost.
    #[tactic(auto, unfolding(crate::specs::Deliveries::Losses::judged))]
    fn judge(&mut self, offers: &[WorldEvent], alloc: Global) -> Result<Vec<WorldEvent>, AllocError>
        ensures kept { IfOk result (λ kept. (kept.items, self.new) ≡ judged self.old offers.now) }
        ensures err { OnErr result (self.new ≡ self.old) }
    {
        let mut generator = self.generator.clone()?;
        let kept = kept_offers(self.percent, offers, &mut generator, alloc)?;
        self.generator = generator;
        Ok(kept)
    }
}

/// Whether there may be losses on this network at an interface of some router.
pub fn lose_somewhere(network: Option<Addr>, slots: &[Slot]) -> bool
    ensures { result ≡ lose_somewhere network slots.now }
{
    slots.iter().any(|slot| loses_at(network, slot))
}

/// Whether the network of an interface, which may be missing, contains an address.
pub fn is_network_of(address: Addr, from: Option<InterfaceAddress>) -> bool
    ensures { result ≡ is_network_of address from }
{
    match from {
        Some(from) => address.0 & mask_of(from.length) == network_of(&from),
        None => false,
    }
}

// Returns those of these deliveries that are not lost, each by the next word of a generator.
fn kept_offers(
    percent: u8,
    offers: &[WorldEvent],
    generator: &mut Lcg64Xsh32,
    alloc: Global,
) -> Result<Vec<WorldEvent>, AllocError>
    ensures { IfOk result (λ kept. (kept.items, generator.new)
        ≡ kept_offers percent offers.now generator.old) }
{
    let mut kept = Vec::new(alloc);
    for offer in offers {
        let word = generator.next_word();
        push_kept(&mut kept, percent, word, *offer)?;
    }
    Ok(kept)
}

// Adds a delivery, unless it is lost.
fn push_kept(
    kept: &mut Vec<WorldEvent>,
    percent: u8,
    word: u32,
    offer: WorldEvent,
) -> Result<(), AllocError>
    ensures { OnOk result (kept.new.items ≡ kept.old.items ++ kept_offer percent word offer []) }
{
    if !is_lost(percent, word) {
        kept.push(offer)?;
    }
    Ok(())
}

// Whether a word means that a delivery is lost.
fn is_lost(percent: u8, word: u32) -> bool
    ensures { result ≡ is_lost percent word }
{
    word % 100 < u32::from(percent)
}

// Whether there may be losses at an interface of this router.
fn loses_at(network: Option<Addr>, slot: &Slot) -> bool
    ensures { result ≡ loses_at network slot.now }
{
    let all = &slot.config().interfaces;
    all.iter().any(|i| loses_on(network, Some(i.address)))
}

// Whether there are losses on the network that an interface sends to.
fn loses_on(network: Option<Addr>, from: Option<InterfaceAddress>) -> bool
    ensures { result ≡ loses_on network from }
{
    match network {
        Some(address) => is_network_of(address, from),
        None => true,
    }
}
