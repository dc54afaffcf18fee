//! What a word of a line spells.

ghost use Rattle.std.specs.Net.Grammar.{IsNumber};
ghost use Rattle.std.specs.List.{All};
ghost use Rattle.std.specs.Prelude.{◌≡◌, ◌≢◌, ◌≤◌, ◌↔◌, ◌∷◌, ◌++◌, ℤ, IfSome, IfNone, IsTrue, slice_index};
ghost use Rattle.std.specs.Str.{IsUtf8};
ghost use Rattle.ospf_script.specs.Values.{IsAddress, IsDecimal, IsFloor, IsPercent, IsPrefix, IsRouterWord};
ghost use Rattle.ospf_script.specs.Words.{Finds};

use ospf_base::{Addr, Prefix, RouterId, mask_of};
use ospf_files::place_of;

// How many digits a floor has, and their radix.
const FLOOR_DIGITS: usize = 8;

const HEXADECIMAL: u32 = 16;

// The largest percentage, and the largest length of a prefix.
const MOST_PERCENT: u64 = 100;

const MOST_LENGTH: u64 = 32;

/// The floor of LS sequence numbers that a word spells: eight hexadecimal digits, of
/// either case, in two's complement (RFC 2328, section 12.1.6); `None` of another word.
pub fn floor_of(word: &[u8]) -> Option<i32>
    ensures some { IfSome result (IsFloor word.now) }
    ensures none { IfNone result ((floor : ℤ) → IsFloor word.now floor → ⊥) }
{
    if word.len() != FLOOR_DIGITS || has_plus(word) {
        return None;
    }
    match u32::from_str_radix(text_of(word)?, HEXADECIMAL) {
        Ok(bits) => Some(bits.cast_signed()),
        Err(_) => None,
    }
}

/// The Router ID that a word spells: four decimal numbers with dots between, none with a zero in
/// front; `None` of another word.
pub fn router_of(word: &[u8]) -> Option<RouterId>
    ensures { Finds result (IsRouterWord word.now) }
{
    Some(RouterId(address_of(word)?.0))
}

/// The address that a word spells, written as a Router ID is; `None` of another word.
pub fn address_of(word: &[u8]) -> Option<Addr>
    ensures { Finds result (IsAddress word.now) }
{
    text_of(word)?.parse::<Addr>().ok()
}

/// The prefix that a word spells: an address, a slash, and how many of its bits count, at most 32,
/// behind which none is set; `None` of another word.
pub fn prefix_of(word: &[u8]) -> Option<Prefix>
    ensures { Finds result (IsPrefix word.now) }
{
    let (dotted, digits) = text_of(word)?.split_once('/')?;
    let address = address_of(dotted.as_bytes())?;
    let length = number_up_to(digits.as_bytes(), MOST_LENGTH)? as u8;
    if address.0 & mask_of(length) != address.0 {
        return None;
    }
    Some(Prefix { address, length })
}

/// The parts of a word before and after the first byte of this value; `None` if it has none.
pub fn parts_at(word: &[u8], byte: u8) -> Option<(&[u8], &[u8])>
    ensures some { IfSome result (λ parts. (word.now ≡ parts.0.now ++ byte ∷ parts.1.now)
        × All (λ b. b ≢ byte) parts.0.now) }
    ensures none { IfNone result (All (λ b. b ≢ byte) word.now) }
{
    let (front, rest) = word.split_at(place_of(word, byte));
    let (_, behind) = rest.split_first()?;
    Some((front, behind))
}

/// How many of a hundred a word spells, in decimal digits; `None` of another word.
pub fn percent_of(word: &[u8]) -> Option<u8>
    ensures { Finds result (IsPercent word.now) }
{
    Some(number_up_to(word, MOST_PERCENT)? as u8)
}

/// The number of 64 bits that a word spells, in decimal digits; `None` of another word.
pub fn number_of(word: &[u8]) -> Option<u64>
    ensures { Finds result (IsDecimal 64 word.now) }
{
    if has_plus(word) {
        return None;
    }
    text_of(word)?.parse::<u64>().ok()
}

/// The number that a word spells, in decimal digits, where it is at most this one; else `None`.
pub fn number_up_to(word: &[u8], most: u64) -> Option<u64>
    ensures { Finds result (λ n. IsNumber 10 word.now n × (n ≤ most)) }
{
    let number = number_of(word)?;
    if number > most {
        return None;
    }
    Some(number)
}

// Whether a word begins with a plus, which the digits of a number do not.
fn has_plus(word: &[u8]) -> bool
    ensures { IsTrue result ↔ (slice_index word.now 0 ≡ 43) }
{
    word.first() == Some(&b'+')
}

/// A word as text; `None` where it is not UTF-8.
pub fn text_of(word: &[u8]) -> Option<&str>
    ensures some { IfSome result (λ text. text.now ≡ word.now) }
    ensures none { IfNone result (IsUtf8 word.now → ⊥) }
{
    str::from_utf8(word).ok()
}
