//! The verifier: whether parts break no rule, or the first rule that they break.

pub mod analysis;
pub mod chain_rules;
pub mod check;
pub mod handlers;
pub mod heights;
pub mod homes;
pub mod layout;
pub mod owners;
pub mod pool_records;
pub mod reached;
pub mod refusals;
pub mod rules;
pub mod shapes;
pub mod targets;
pub mod waiting;
