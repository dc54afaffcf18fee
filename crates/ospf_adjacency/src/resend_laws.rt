//! Laws of answers and repeats: each holds of all neighbours and databases.

ghost use Rattle.ospf_adjacency.specs.ResendLaws.{AnswersAreQuiet, KeysGoInOrder, RepeatsAreQuiet, UpdatesArePacked};

/// By a Request that is answered, or not, new on a neighbour's lists are only copies of the
/// database, and in its last Database Description those and what its summary list had; what waits
/// for an acknowledgement stops waiting only below Exchange, and the neighbour stays the router
/// that it is and does not enter Exchange. Each Update that goes out has only copies.
pub fn answers_are_quiet()
    ensures { AnswersAreQuiet }
{}

/// Repeats are as quiet as answers are by `answers_are_quiet`.
pub fn repeats_are_quiet()
    ensures { RepeatsAreQuiet }
{}

/// The Updates with copies have them all, in the order of their keys, and
/// as many in each as fit the MTU.
pub fn updates_are_packed()
    ensures { UpdatesArePacked }
{}

/// The keys whose copies go out rise, each once.
pub fn keys_go_in_order()
    ensures { KeysGoInOrder }
{}
