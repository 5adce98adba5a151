//! The theories of a session: what their imports say of them, and the order in which they are loaded.
#![tactic(auto)]

mod imports;
mod judge;
mod loading;
mod names;
mod near;
mod order;
mod ordered;
mod place;
mod reason;
mod session;
mod table;
mod texts;

pub use loading::{Theories, load_theories};
pub use order::Loaded;
pub use reason::{RefusedFile, parent_refused_text};
pub use session::{Session, load};
