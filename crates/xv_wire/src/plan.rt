//! The plan by which the calls of a wire in memory fail.

use std::marker::Model;

/// The numbers, from 1, of the puts that are to fail, and of the pieces put at whose first byte a take is to fail once.
#[derive(Drop)]
pub struct WirePlan {
    pub puts: Vec<u32>,
    pub takes: Vec<u32>,
}

impl Model for WirePlan {
    ghost use Rattle.xv_wire.specs.Wire.{Plan};

    ghost Value = { Plan };

    ghost view = { λ p. record { puts = p.puts.items; takes = p.takes.items } };
}
