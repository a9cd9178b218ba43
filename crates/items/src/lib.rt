// The items of a packet, read byte by byte. Start at specs/ItemsIn.antt, which is what `items_in` promises, over the meaning of
// items in packet/specs/Items.antt; then scan.rt.
#![tactic(auto)]

pub mod scan;

pub use scan::items_in;
