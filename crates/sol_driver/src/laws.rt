// How far each status comes exactly where its cause is.

ghost use Rattle.std.specs.Prelude.{◌≡◌, ◌≢◌, ◌↔◌, ◌≤◌, ◌<◌, ℕ, List, None, length, map, string_bytes};
ghost use Rattle.sol_outside.specs.Causes.{Rose};
ghost use Rattle.sol_driver.specs.declared.outcome.Status.{Status as AnyStatus};
ghost use Rattle.sol_words.specs.Request.{request};
ghost use Rattle.sol_driver.specs.Ends.{Asked, Told, NoReadFault, EndsWith};
ghost use Rattle.sol_driver.specs.Exactly.{Undisturbed, CanRise, Holds, Judges};

use crate::outcome::Status;
use chc_nums::MAX_FILE_BYTES;

/// Where no put failed and memory was not wanting, the words are refused exactly where they are of no form that is read;
/// a read fault is told exactly where a read failed. Of a source whose bytes the shelf tells and that was read, it is told that
/// it is too long where it holds more than 262,144 bytes; the status of any other judges its text, and says that a file is too
/// long only of a script. A failed put is told exactly where one failed, unless want of memory is.
#[tactic(auto, using(crate::proofs::Exactly::statuses))]
pub fn status_laws()
    ensures words { (a : Asked) (t : Told) (s : AnyStatus) → EndsWith a t s → Undisturbed s → (request (map string_bytes a.words) ≡ None) ↔ (s ≡ Status.Words) }
    ensures read_fault { (a : Asked) (t : Told) (s : AnyStatus) → EndsWith a t s → Undisturbed s → CanRise a.faults_before → Rose a.faults_before a.faults_after ↔ (s ≡ Status.ReadFault) }
    ensures too_long { (a : Asked) (t : Told) (s : AnyStatus) (text : List ℕ) → EndsWith a t s → Undisturbed s → CanRise a.faults_before → NoReadFault a → Holds a text → MAX_FILE_BYTES < length text → s ≡ Status.TooLong }
    ensures judged { (a : Asked) (t : Told) (s : AnyStatus) (text : List ℕ) → EndsWith a t s → Undisturbed s → CanRise a.faults_before → NoReadFault a → Holds a text → length text ≤ MAX_FILE_BYTES → Judges a text s }
    ensures write_fault { (a : Asked) (t : Told) (s : AnyStatus) → EndsWith a t s → s ≢ Status.NoMemory → CanRise t.faults_before → Rose t.faults_before t.faults_after ↔ (s ≡ Status.WriteFault) }
{}
