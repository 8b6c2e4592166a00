//! What a contract says.

use gd_units::{Band, Dth, Name};

/// What a contract buys: firm transportation service, or interruptible (18 CFR 284.7 and 284.9).
#[derive(Clone, Copy, Debug)]
pub enum Service {
    /// Firm service between two points or pools, the primary ends, over the route from the one to the other.
    Firm { origin: Name, dest: Name },
    /// Interruptible service at a rate band from 1 to 5 (own).
    Interruptible { band: Band },
}

/// A shipper's contract for transportation.
#[derive(Clone, Copy, Debug)]
pub struct Contract {
    pub name: Name,
    pub shipper: Name,
    /// Dekatherms a gas day.
    pub quantity: Dth,
    pub service: Service,
}
