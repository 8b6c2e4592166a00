//! A question as a network of arcs, whose circulations within bounds are its allowed schedules; steps along its arcs and back,
//! how much they can carry, and what a push along a walk leaves.
#![tactic(auto)]

mod arcs;
mod flow;
mod laws;
mod links;
mod network;
mod rooms;
mod walks;

pub use arcs::Arc;
pub use flow::Flow;
pub use laws::{
    all_there, elements_bring, flows_schedule, lines_rise, potentials_price, reached_cut,
    schedules_flow, ten_sums,
};
pub use network::{Network, Tenth};
pub use rooms::{least_room, near_fits, within_is_near};
pub use walks::{Step, push};
