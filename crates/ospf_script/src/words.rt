//! The words of a line.

ghost use Rattle.std.specs.Prelude.{◌≡◌, ◌<◌, ◌↔◌, ◌∷◌, [], length, IfSome, IfNone, IsTrue};
ghost use Rattle.std.specs.List.{prefix_len};
ghost use Rattle.ospf_base.specs.Text.{IsBlank};
ghost use Rattle.ospf_script.specs.Words.{Text, is_space, line_words};

use ospf_files::place_of;

/// The first word of a text, and the text after it; `None` if the text is blank.
pub fn first_word(text: &[u8]) -> Option<(&[u8], &[u8])>
    ensures word { IfSome result (λ found. line_words text.now ≡ found.0.now
        ∷ line_words found.1.now) }
    ensures shorter { IfSome result (λ found. length found.1.now < length text.now) }
    ensures blank { IfNone result (IsBlank text.now) }
    ensures none { IfNone result (line_words text.now ≡ []) }
{
    let (_, from) = text.split_at(leading_spaces(text));
    let length = place_of(from, b' ');
    if length == 0 {
        return None;
    }
    Some(from.split_at(length))
}

/// The word of a text that has one alone; `None` of another text.
pub fn one_word(text: &[u8]) -> Option<&[u8]>
    ensures some { IfSome result (λ word. line_words text.now ≡ word.now ∷ []) }
    ensures none { IfNone result ((word : Text) → line_words text.now ≡ word ∷ [] → ⊥) }
{
    let (word, rest) = first_word(text)?;
    first_word(rest).is_none().then_some(word)
}

/// Whether a text has this word alone.
pub fn is_alone(text: &[u8], word: &str) -> bool
    ensures { IsTrue result ↔ (line_words text.now ≡ word.now ∷ []) }
{
    one_word(text) == Some(word.as_bytes())
}

/// The words of a text that has two; `None` of another text.
pub fn two_words(text: &[u8]) -> Option<(&[u8], &[u8])>
    ensures some { IfSome result (λ found. line_words text.now ≡ found.0.now ∷ found.1.now ∷ []) }
    ensures none { IfNone result ((first second : Text) → line_words text.now ≡ first ∷ second
        ∷ [] →
        ⊥) }
{
    let (first, rest) = first_word(text)?;
    let second = one_word(rest)?;
    Some((first, second))
}

/// The words of a text that has three; `None` of another text.
pub fn three_words(text: &[u8]) -> Option<(&[u8], &[u8], &[u8])>
    ensures some { IfSome result (λ found. line_words text.now
        ≡ found.0.now ∷ found.1.now ∷ found.2.now ∷ []) }
    ensures none { IfNone result ((first second third : Text) →
        line_words text.now ≡ first ∷ second ∷ third ∷ [] → ⊥) }
{
    let (first, rest) = first_word(text)?;
    let (second, third) = two_words(rest)?;
    Some((first, second, third))
}

// How many spaces a text begins with.
fn leading_spaces(text: &[u8]) -> usize
    ensures { result ≡ prefix_len is_space text.now }
{
    for place in 0..text.len() {
        if text[place] != b' ' {
            return place;
        }
    }
    text.len()
}
