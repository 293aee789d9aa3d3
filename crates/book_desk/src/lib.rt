//! Many books, of which each has the series that belong to it. A post is split into parts, one for
//! each book: all books take their parts, or none keeps anything of its own. The same holds of a
//! flush of all books, and of a quarantine.
#![tactic(auto)]

pub mod by_number;
mod cross;
pub mod desk;
pub mod draft;
mod draft_of;
mod earlier;
pub mod end;
pub mod end_range;
mod find;
pub mod flushes;
mod hold;
mod home;
mod index;
pub mod laws;
mod name;
pub mod names;
mod none;
pub mod part;
mod post;
pub mod reader;
mod request_of;
mod rounds;
mod said;
mod split;
mod take;
pub mod window;
