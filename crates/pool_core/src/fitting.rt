// Whether a batch fits what was seen.

ghost use Rattle.std.specs.Prelude.{◌≡◌, ◌↔◌, IsTrue};
ghost use Rattle.pool_lock.specs.Entries.{StartsWith};

use crate::alike::all_alike;
use chc_form::Lemma;

/// Whether the lemmas begin with these.
pub fn starts_with(lemmas: &[Lemma], front: &[Lemma]) -> bool
    ensures { IsTrue result ↔ StartsWith lemmas.now front.now }
{
    front.len() <= lemmas.len() && all_alike(&lemmas[..front.len()], front)
}
