//! What order nested loops give by themselves, and when a plan must sort
//! (<https://sqlite.org/optoverview.html>, "ORDER BY Optimizations").
//!
//! The order is carried along the loops from outside in: what one loop more makes of it is one
//! step, which looks at the keys that are left and at the columns that the loop's path walks in
//! order. No step takes memory.
#![tactic(auto)]

mod columns;
mod held;
mod passing;
mod positions;
mod state;

pub use state::{OrderState, first_state, order_number, pass_loop, walks_backward};
