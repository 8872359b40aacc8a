//! The laws of what instructions do. Each function states one and does nothing.

ghost use Rattle.std.specs.Prelude.{◌≡◌, ℕ, Bool, List, IsTrue, true, false};
ghost use Rattle.mdl_state.specs.declared.Regs.{Regs};
ghost use Rattle.mdl_insn.specs.Spelling.{Spelt};
ghost use Rattle.mdl_insn.specs.declared.instruction.Insn.{Insn};
ghost use Rattle.mdl_cpu.specs.Segments.{is_protected};
ghost use Rattle.mdl_effect.specs.DataEffects.{runs_data, data_effect};
ghost use Rattle.mdl_effect.specs.FlowEffects.{runs_flow, flow_effect};
ghost use Rattle.mdl_effect.specs.StringEffects.{runs_string, string_plan};
ghost use Rattle.mdl_effect.specs.FarEffects.{runs_far, far_transfer};
ghost use Rattle.mdl_effect.specs.ProtectionEffects.{is_protected_only};
ghost use Rattle.mdl_effect.specs.SystemEffects.{runs_system, system_effect};
ghost use Rattle.mdl_effect.specs.Forms.{IsFormed};
ghost use Rattle.mdl_effect.specs.Ways.{IsComplete, IsSystemComplete, IsFarComplete};

/// An instruction, however it is spelt, has the operands that its mnemonic takes. So what computes it
/// from decoded bytes needs no answer for others.
pub fn operands_have_the_form_of_their_mnemonic()
    ensures { (bytes : List ℕ) (big : Bool) (insn : Insn) → Spelt bytes big insn → IsFormed insn }
{}

/// No way through the plan of an instruction that some bytes spell fails as if there were none, and
/// each that passes leaves the mode. One of the system may change the mode, and leaves sound registers;
/// those that only protected mode has are not defined to real mode and V86. A far transfer leaves sound
/// registers in every mode, and those that there were where a task switch follows.
pub fn instructions_come_to_no_missing_row()
    ensures of_data { (bytes : List ℕ) (big : Bool) (insn : Insn) (r : Regs) (free : ℕ)
        → Spelt bytes big insn → IsTrue (runs_data insn) → IsComplete r (data_effect insn r free) }
    ensures of_flow { (bytes : List ℕ) (big : Bool) (insn : Insn) (r : Regs) (back : ℕ)
        → Spelt bytes big insn → IsTrue (runs_flow insn) → IsComplete r (flow_effect insn r back) }
    ensures of_string { (bytes : List ℕ) (big : Bool) (insn : Insn) (r : Regs) (free : ℕ)
        → Spelt bytes big insn → IsTrue (runs_string insn.op) → IsComplete r (string_plan insn r free) }
    ensures of_far { (bytes : List ℕ) (big : Bool) (insn : Insn) (r : Regs) (back : ℕ)
        → Spelt bytes big insn → IsTrue (runs_far insn) → IsFarComplete r (far_transfer insn r back) }
    ensures of_system { (bytes : List ℕ) (big : Bool) (insn : Insn) (r : Regs) (back : ℕ)
        → Spelt bytes big insn → IsTrue (runs_system insn) → (is_protected_only insn.op ≡ true → is_protected r ≡ true) → IsSystemComplete r (system_effect insn r back) }
{}
