//! The payload of a number, picked out of all.

ghost use Rattle.std.specs.Prelude.{◌≡◌};
ghost use Rattle.doc_rewrite.specs.Finding.{picked_of};

use crate::found::FoundAt;
use crate::listener::Listener;

/// The payload that is looked for, once it was told of; until then, how many stand before it.
#[derive(Drop)]
pub(crate) struct Picking {
    pub(crate) before: usize,
    pub(crate) picked: Option<FoundAt>,
}

impl Listener for Picking {
    ghost use Rattle.std.specs.Prelude.{◌≡◌, ◌∷◌, List};
    ghost use Rattle.doc_rewrite.specs.Finding.{picked_of};
    ghost use Rattle.doc_rewrite.specs.declared.found.FoundAt.{FoundAt};

    ghost tells = { λ a b f. (rest : List FoundAt)
        → picked_of b.before b.picked rest ≡ picked_of a.before a.picked (f ∷ rest) };

    fn tell(&mut self, payload: FoundAt) {
        if self.picked.is_some() {
            return;
        }
        if self.before == 0 {
            self.picked = Some(payload);
        } else {
            self.before -= 1;
        }
    }
}
