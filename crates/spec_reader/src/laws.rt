ghost use Rattle.std.specs.Prelude.{◌≡◌, ◌⊎◌, ℕ, List};
ghost use Rattle.spec_reader.specs.Specs.{IsRefused, IsScript};
ghost use Rattle.spec_reader.specs.WrittenScripts.{IsWritableScript, script_text};
ghost use Rattle.spec_reader.specs.declared.fault.SpecFault.{SpecFault};
ghost use Rattle.spec_reader.specs.declared.fault.SpecFault.TheVariants.{NoMemory};
ghost use Rattle.spec_reader.specs.declared.spec.Spec.{Spec};

/// A text is one script at most.
pub fn no_two_scripts()
    ensures { (text : List ℕ) (one other : Spec) → IsScript text one → IsScript text other → other ≡ one }
{}

/// A text that is refused is no script.
pub fn refused_is_no_script()
    ensures { (text : List ℕ) (fault : SpecFault) → IsRefused text fault → (fault ≡ NoMemory) ⊎ ((spec : Spec) → IsScript text spec → ⊥) }
{}

/// A text is refused for one reason.
pub fn refused_for_one_reason()
    ensures { (text : List ℕ) (one other : SpecFault) → IsRefused text one → IsRefused text other → (one ≡ NoMemory) ⊎ ((other ≡ NoMemory) ⊎ (one ≡ other)) }
{}

/// Whatever can be written, as `script_text` has it, is read back.
pub fn written_scripts_are_read_back()
    ensures { (spec : Spec) → IsWritableScript spec → IsScript (script_text spec) spec }
{}
