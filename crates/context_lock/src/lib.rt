//! A lock whose holders know one history.
#![tactic(auto)]

mod bells;
mod historic;
mod inside;
mod lock;
mod pass;
mod turns;
mod view;

pub use historic::Historic;
pub use inside::{Inside, Turn};
pub use lock::ContextLock;
pub use pass::Pass;
pub use view::{History, Pair, Sight, Stay, View};
