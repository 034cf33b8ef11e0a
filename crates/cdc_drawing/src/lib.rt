//! A simulation as a drawing in SVG: a lane for each actor, and a row for each step.
#![tactic(auto)]

mod labels;
mod recorder;
mod rows;
mod shapes;

pub use recorder::DrawingRecorder;
