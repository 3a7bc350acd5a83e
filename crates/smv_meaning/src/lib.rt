#![tactic(auto)]
//! What a model means: its instances, variables and states, the values of its expressions, its runs,
//! and on these the truth of formulas, counterexamples and partial traces.
//!
//! The definitions stand in `specs` and walk the module tree as it is written; no other crate's code
//! is repeated in them. The functions of this crate have no code: their contracts are laws of the
//! definitions.

mod cycles;
mod example;
mod flat_lines;
mod formula_laws;
mod laws;
mod one_naming;
mod rows;
mod sweep_laws;
mod trace_laws;

pub use cycles::{
    ordered_definitions_settle, orders_exclude_cycles, program_without_cycle_settles,
    settled_program_has_no_cycle, told_cycles_are_one,
};
pub use example::{nested_modules_are_told, ring_goes_around};
pub use flat_lines::{flat_values_are_those_of_the_program, line_settles};
pub use formula_laws::{
    Atoms, limits_past_the_length_agree, operators_are_dual, settled_is_so_on_lassos,
    steps_go_round, truth_is_decided,
};
pub use laws::{
    constant_is_its_value, front_of_run_is_run, member_is_one_value, members_keep_their_order,
    next_is_one_step, same_values_are_equal,
};
pub use one_naming::{
    each_expression_has_one_list_of_values, each_moment_has_one_naming,
    program_without_cycle_has_one_naming,
};
pub use rows::{instances_have_rows, instances_stand_behind_others, no_instance_is_left_out};
pub use sweep_laws::{Sides, one_sweep_decides_what_is_settled, two_sweeps_decide_until};
pub use trace_laws::{
    less_is_extended_too, refuted_paths_refute_lassos, runs_extend_themselves,
    single_loops_are_valid_from_a_bound_on,
};
