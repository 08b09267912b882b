//! A gate that workers pass, by which tests steer the order of what threads do.
use sched_base::Spot;

/// Where a worker stands when it passes the gate.
#[derive(Clone, Copy, Debug, PartialEq, Eq)]
pub enum Point {
    /// Before it asks for a lock.
    BeforeStep,
    /// As soon as it has the lock of that place.
    Holding(Spot),
}

/// A gate. It means nothing to the policy: what passes it learns nothing and is changed in nothing.
pub trait Gate {
    /// Lets the actor go on from this point, now or later.
    fn pass(&self, actor: u8, point: Point);
}

/// A gate that does nothing.
#[derive(Clone, Copy, Debug, Default, PartialEq, Eq)]
pub struct NoGate;

impl Gate for NoGate {
    fn pass(&self, _actor: u8, _point: Point) {}
}

#[cfg(test)]
mod tests {
    use super::*;

    #[test]
    fn a_gate_that_does_nothing_lets_every_point_pass() {
        for point in [
            Point::BeforeStep,
            Point::Holding(Spot::Cluster(1)),
            Point::Holding(Spot::Yard),
        ] {
            NoGate.pass(0, point);
        }
    }
}
