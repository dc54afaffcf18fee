//! The words that commands begin with.

use crate::command::View;
use crate::values::text_of;

/// The word that a command begins with.
#[derive(Clone, Copy, Debug, PartialEq, Eq)]
pub enum Name {
    Start,
    Stop,
    Tick,
    Up,
    Down,
    Deliver,
    Cut,
    Mend,
    Round,
    Batch,
    Random,
    Settle,
    Show(View),
    Walk,
    Say,
    Why,
    Datagrams,
    Drops,
    Lsas,
    Loss,
    Expect,
    Label,
}

impl Name {
    ghost use Rattle.ospf_script.specs.Names.{IsWordOf};
    ghost use Rattle.ospf_script.specs.Words.{Finds};

    /// The name that a word is, if it is one.
    pub fn read(word: &[u8]) -> Option<Name>
        ensures { Finds result (IsWordOf word.now) }
    {
        let name = match text_of(word)? {
            "start" => Name::Start,
            "stop" => Name::Stop,
            "tick" => Name::Tick,
            "up" => Name::Up,
            "down" => Name::Down,
            "deliver" => Name::Deliver,
            "cut" => Name::Cut,
            "mend" => Name::Mend,
            "round" => Name::Round,
            "batch" => Name::Batch,
            "random" => Name::Random,
            "settle" => Name::Settle,
            "neighbours" | "neighbors" => Name::Show(View::Neighbours),
            "listing" => Name::Show(View::Listing),
            "table" => Name::Show(View::Table),
            "walk" => Name::Walk,
            "floor" => Name::Show(View::Floor),
            "say" => Name::Say,
            "why" => Name::Why,
            "datagrams" => Name::Datagrams,
            "drops" => Name::Drops,
            "lsas" => Name::Lsas,
            "loss" => Name::Loss,
            "expect" => Name::Expect,
            "label" => Name::Label,
            _ => return None,
        };
        Some(name)
    }
}
