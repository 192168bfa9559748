// Scenes: what two maps show together over a window, under an operation, and its shortest list.
//
// What is known of a map over a block goes down with it, a colour or a hint (`probe::Seen`). A map is asked again only where the operation
// is not settled by what is known already.
//
// Read first: specs/Operation.antt and specs/Scene.antt; then `View::shown`.
#![tactic(auto)]

mod layer;
mod operations;
mod painting;
mod scene;

pub use layer::Layer;
pub use operations::Operation;
pub use scene::{Glance, Known, Probe, View};
