//! What the replies alone determine of a session: where it stands, its unit of work, the chain in work, what is kept to be said and
//! what is owed. One call for each event of the plain model, which says what it makes of that.
#![tactic(auto)]

mod access;
mod end;
mod incoming;
mod local;
mod replies;
mod session;
mod size;
mod standing;
mod work;

pub use end::{CoreEnd, LimitKind};
pub use incoming::{Incoming, Reading};
pub use session::SessionCore;
pub use standing::Standing;

#[cfg(test)]
mod tests;
