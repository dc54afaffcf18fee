//! LSAs without an age.

ghost use Rattle.std.specs.Prelude.{◌≡◌, ◌∷◌};
ghost use Rattle.ospf_base.specs.Sums.{contents};

use ospf_base::Age;
use ospf_lsa::{Lsa, LsaView};
use std::marker::Model;

// An LSA whose age is stored elsewhere: its age field is 0.
#[derive(Drop)]
pub(crate) struct Ageless {
    lsa: Lsa,
}

impl Model for Ageless {
    ghost use Rattle.std.specs.Prelude.{◌≡◌, ◌∷◌, ℕ, List};
    ghost use Rattle.ospf_base.specs.Sums.{contents};

    ghost Value = { List ℕ };

    ghost view = { λ a. contents a.lsa };

    ghost invariant = { λ a. a.lsa ≡ 0 ∷ 0 ∷ contents a.lsa };
}

impl Ageless {
    pub(crate) fn new(mut lsa: Lsa) -> Ageless
        ensures { result ≡ contents lsa }
    {
        lsa.set_age(Age::new(0));
        Ageless { lsa }
    }

    pub(crate) fn view(&self) -> LsaView<'_>
        ensures { result ≡ 0 ∷ 0 ∷ self.now }
    {
        self.lsa.view()
    }
}
