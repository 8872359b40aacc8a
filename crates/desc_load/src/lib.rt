//! Descriptors, and loads of segment registers, of LDTR and of TR, in each mode.
//!
//! The one contract used above: each call is its written plan, tried over any memory, as
//! `load_data` is `load_data_plan`. Read `mdl_cpu/specs/Descriptors.antt` first, then `Loads.antt`.
#![tactic(auto)]

mod descriptors;
mod marks;
mod segments;
mod selectors;
mod system;

pub use descriptors::{
    dpl, fetch_descriptor, is_beyond, is_code, is_conforming, is_data, is_outside, is_present,
    is_readable_code, is_segment, is_writable_data, place_of, read_descriptor, system_type,
};
pub use marks::{set_accessed, set_busy};
pub use mdl_cpu::Desc;
pub use segments::{
    has_protection, hidden_of, is_virtual, load_data, load_data_or, load_known, load_real,
    load_segment, load_stack, load_v86, null_segment, stack_descriptor, virtual_segment,
};
pub use selectors::{fault_at, in_ldt, is_null, rpl};
pub use system::{has_wide_tss, load_ldt, load_task};
