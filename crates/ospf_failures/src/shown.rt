//! The order in which failures are printed.

ghost use Rattle.std.specs.Prelude.{IsPermutation};
ghost use Rattle.std.specs.List.Sorted.{IsSorted};
ghost use Rattle.ospf_failures.specs.Answer.{AreShownOveralls};
ghost use Rattle.ospf_failures.specs.HarmLines.{overall_harm_cmp};

use crate::overall::{Overall, sort_overalls_by_harm};
use ospf_harm::FailuresForm;

// What is reported over all routers in the order of a form.
pub(crate) fn shown_overalls(form: FailuresForm, overalls: Vec<Overall>) -> Vec<Overall>
    ensures { AreShownOveralls form overalls.items result.items }
{
    match form {
        FailuresForm::Text => overalls,
        FailuresForm::Json => overalls,
        FailuresForm::JsonLines => overalls_by_harm(overalls),
        FailuresForm::Harm => overalls_by_harm(overalls),
    }
}

// What is reported over all routers by harm.
fn overalls_by_harm(overalls: Vec<Overall>) -> Vec<Overall>
    ensures same { IsPermutation overalls.items result.items }
    ensures in_order { IsSorted overall_harm_cmp result.items }
{
    let mut shown = overalls;
    sort_overalls_by_harm(&mut shown);
    shown
}
