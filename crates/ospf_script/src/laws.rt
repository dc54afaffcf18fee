//! Laws: each holds of all commands.

ghost use Rattle.ospf_script.specs.Laws.{PrintedIsSpelled, WordsSpellOneCommand};

/// No words spell two commands, so that `Command::read` answers the one that they spell.
pub fn words_spell_one_command()
    ensures { WordsSpellOneCommand }
{}

/// What is printed of a command that was read is a line that is read as that command again.
pub fn printed_is_spelled()
    ensures { PrintedIsSpelled }
{}
