// A text and its script are each other's way back.

ghost use Rattle.std.specs.Prelude.{◌≡◌, ◌↔◌, ℕ, List, Ok, IsTrue};
ghost use Rattle.sol_core.specs.Formed.{formed};
ghost use Rattle.sol_script.specs.Reading.{read_script};
ghost use Rattle.sol_script.specs.Told.{is_told, script_text};
ghost use Rattle.sol_core.specs.declared.Script.{Script as AnyScript};

use sol_core::Program;

/// A text of a formed program tells a script exactly where it is the text of that script, and the script can be told: each
/// call has a door, each number has 128 bits, and at most 128 replies are open at one line. So a text tells one script, and
/// a script has one text.
#[tactic(auto, using(crate::proofs::BothWays::laws))]
pub fn text_law(p: &Program)
    requires { IsTrue (formed p.now) }
    ensures law { (text : List ℕ) (s : AnyScript) → (read_script p.now text ≡ Ok s) ↔ ((text ≡ script_text p.now s) × IsTrue (is_told p.now s)) }
{}
