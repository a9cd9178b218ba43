// Who is on the air, and the order in which present keyings began.
// Start at specs/Air.antt, which is 01's section sentence by sentence, and specs/Order.antt; then air.rt and order.rt.
// Private: marks.rt, a set of seats as eight marks.
#![tactic(auto)]

pub mod air;
mod marks;
pub mod order;

pub use air::aired;
pub use order::order_after;
