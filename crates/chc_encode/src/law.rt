// What the rules of a contract say of its program.

ghost use Rattle.std.specs.Prelude.{◌≡◌, true};
ghost use Rattle.chc_form.specs.WellMade.{well_made};
ghost use Rattle.sol_first.specs.declared.Contract.{Contract};
ghost use Rattle.sol_first.specs.Typed.{IsTyped};
ghost use Rattle.sol_first.specs.Elaborated.{program_of};
ghost use Rattle.chc_encode.specs.Systems.{system_of};
ghost use Rattle.chc_encode.specs.Few.{are_few, IsWithinLimits};
ghost use Rattle.chc_encode.specs.Sound.{Sound, Exact, Asks};

/// Lemmas that solve the rules and refute a query leave no script that violates its target. The rules derive just the
/// targets that scripts violate, and have one query for each target. Where their lists are short, they are well made, and
/// within the limits of the language they are short.
pub fn encoding_law()
    ensures sound { (c : Contract) → IsTyped c → well_made (system_of c) ≡ true → Sound (system_of c) (program_of c) }
    ensures exact { (c : Contract) → IsTyped c → Exact (system_of c) (program_of c) }
    ensures well { (c : Contract) → IsTyped c → are_few (system_of c) ≡ true → well_made (system_of c) ≡ true }
    ensures few { (c : Contract) → IsWithinLimits c → are_few (system_of c) ≡ true }
    ensures asks { (c : Contract) → Asks (system_of c) (program_of c) }
{}
