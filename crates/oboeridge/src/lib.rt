// Oboeridge: calls on maps that are linear quadtrees, each proved for every input.
//
// A call judges its own input and requires nothing. It answers what it gives, or a refusal: the rule that is broken, with the rule's number.
// The calls stand in the crates `lookups`, `place`, `overlays` and `conversions`, each with the definition of what it answers;
// what they promise stands here, in specs/Demands.antt.
#![tactic(auto)]

pub use conversions::{to_list, to_raster};
pub use lookups::{Cell, Direction, check, lookup, neighbour};
pub use overlays::{Frame, Window, overlay, window_of};
pub use painter::Operation;
pub use place::{Ground, Place, Shift, placing};
pub use refusal::Refusal;
