//! The callers that the crates' pages show: short pieces of code that use one crate each, proved with
//! contracts of their own. Nothing stands on them.
#![tactic(auto)]

pub mod agreed_contexts;
pub mod agreed_secrets;
pub mod answered_inputs;
pub mod choices;
pub mod copied_reads;
pub mod derived_keys;
pub mod ended_phases;
pub mod key_derivation;
pub mod multiplied_dsa_polynomials;
pub mod multiplied_polynomials;
pub mod opened_mails;
pub mod rejected_secrets;
pub mod repeated_samples;
pub mod rewritten_keys;
pub mod sealed_contexts;
pub mod sealed_mails;
pub mod sealed_records;
pub mod sent_phases;
pub mod sent_secrets;
pub mod sent_texts;
pub mod standard_keys;
pub mod stored_seeds;
pub mod tagged_values;
pub mod wrapped_file_keys;
pub mod written_polynomials;
pub mod written_recipients;
