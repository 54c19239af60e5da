//! The roles of devices, what a role refuses, and the settings of a chain.
#![tactic(auto)]

mod chain;
mod examples;
mod pool;
mod role;
mod settings;

pub use chain::ChainSettings;
pub use examples::pool_examples;
pub use pool::Pool4;
pub use role::{Role, role_refuses4, role_refuses6};
pub use settings::Settings;
