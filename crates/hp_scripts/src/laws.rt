//! What is proved of scenarios with names, as contracts of functions with empty bodies.
ghost use Rattle.std.specs.Prelude.{◌≡◌, ℕ, Err, List, Ok};
ghost use Rattle.hp_scripts.specs.Named.{named_in, plainly};
ghost use Rattle.hp_scenario.specs.Scenario.{ScenarioValue, scenario_in};
ghost use Rattle.hp_scenario.specs.declared.fault.ScenarioFault.{ScenarioFault};
ghost use Rattle.hp_scenario.specs.declared.fault.ScenarioFault.TheVariants.{BadLine};

/// A text that is a scenario by the rules without names is the same scenario by the rules with
/// names. None of its lines then works on a result by its name. A text that is no scenario has the
/// same fault by both rules, unless the fault is that of a line. So names add meaning only to a
/// text with a line that is not understood without them.
pub fn scenarios_without_names_are_read_alike()
    ensures read { (bytes : List ℕ) (s : ScenarioValue) → scenario_in bytes ≡ Ok s
        → named_in bytes ≡ Ok (plainly s) }
    ensures refused { (bytes : List ℕ) (fault : ScenarioFault) → scenario_in bytes ≡ Err fault
        → ((line : ℕ) → fault ≡ BadLine line → ⊥) → named_in bytes ≡ Err fault }
{}
