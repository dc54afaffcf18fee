//! What is reported of a line of a script while it runs.

ghost use Rattle.std.specs.Prelude.{⊤};
ghost use Rattle.ospf_commands.specs.Deliveries.Progress.{ProgressRule};

use ospf_world::EventWatch;

/// Receives each event and how far a line of the script has come; the simulation learns nothing
/// back.
pub trait Watch: EventWatch {
    // What a report does to the watch; it may promise nothing.
    ghost goes_on_gives: { ProgressRule Self } = { λ _ _. ⊤ };

    /// This many rounds of a line are done, and one more begins.
    fn begins_round(&mut self, done: u64, count: u64)
        ensures { goes_on_gives self.old self.new };

    /// This many random events of a line are drawn, and more follow.
    fn draws_events(&mut self, done: u64, count: u64)
        ensures { goes_on_gives self.old self.new };

    /// The line is over.
    fn ends_line(&mut self)
        ensures { goes_on_gives self.old self.new };
}
