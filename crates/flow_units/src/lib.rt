//! The units of a flow as bytes: a rule with the values of its inputs, and the value of a rule.
//!
//! `specs/Bodies.antt` says how they are put (`forms`), and which unit a work type, an answer rank and a body are. The clauses of
//! `unit_laws` are theorems: these forms are what `flow_run_law` asks for.
#![tactic(auto)]

mod answers;
mod laws;
mod pieces;
mod rules;

pub use answers::AnswerUnit;
pub use laws::unit_laws;
pub use rules::RuleUnit;
