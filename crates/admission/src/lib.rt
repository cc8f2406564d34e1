// The radio pools of a RAB controller: what they hold, admit, take and give back.
#![tactic(auto)]

mod grants;
mod pool;
mod rate;
mod sizes;
mod tree;
mod undone;

pub use grants::GrantSet;
pub use pool::RadioPool;
pub use rate::RatePool;
pub use tree::CodeTree;
pub use undone::give_undoes_take;
