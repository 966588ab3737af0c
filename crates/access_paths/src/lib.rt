//! The ways to the rows of one table of a statement, once other tables are placed: which there are,
//! and what each costs (<https://sqlite.org/optoverview.html>, <https://sqlite.org/eqp.html>).
#![tactic(auto)]

mod branches;
mod consumed;
mod covering;
mod fitting;
mod found;
mod indexes;
mod item_offers;
mod listing;
mod next_item;
mod offer;
mod seeks;
mod setting;
mod supply;
mod taken;
mod usable;

pub use indexes::TableIndexes;
pub use listing::offers;
pub use offer::Offer;
pub use setting::Setting;
