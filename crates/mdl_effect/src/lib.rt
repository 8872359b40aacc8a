//! What the data, flow, string, far and system instructions do, as it is written down: plans of reads,
//! writes and checks.
//!
//! The one contract used above is the definitions themselves, `data_effect`, `flow_effect`,
//! `string_plan`, `far_run` and `system_effect`, with the laws on what is spelt: its operands have the
//! form of its mnemonic, it comes to no row that no instruction has, and it leaves the mode, or sound
//! registers. Read `specs/Operands.antt` first, then `DataEffects`, `StackEffects`, `Jumps`,
//! `FlowEffects`, `StringEffects`, `FarEffects`, `SystemEffects`.
#![tactic(auto)]

mod laws;

pub use laws::{instructions_come_to_no_missing_row, operands_have_the_form_of_their_mnemonic};
