ghost use Rattle.session_model.specs.Answers.{Steps};
ghost use Rattle.session_model.specs.Laws.{NodeOneScan, NodeOneStep, NodeTalksOn, ScansFollow, SessionsFollow, Simulates};

use std::marker::Brand;

/// Two rules of steps in each of some worlds, each rule over states of its own, and which of these stand for each other.
/// A caller's proof picks them where the call passes `Brand`.
pub trait Simulation {
    ghost World: { Type 0 };

    ghost First: { Type 0 };

    ghost Second: { Type 0 };

    ghost StandFor: { World → First → Second → Type 0 };

    ghost first: { World → Steps First };

    ghost second: { World → Steps Second };
}

impl Simulation for Brand {
    ghost World = { Unit {0} };

    ghost First = { Unit {0} };

    ghost Second = { Unit {0} };

    ghost StandFor = { λ w s t. Unit {0} };

    ghost first = { λ w event s reply now. ⊥ };

    ghost second = { λ w event s reply now. ⊥ };
}

/// Where one rule of steps stands for another, a session by the one is a session by the other.
pub fn sessions_follow<R: Simulation>()
    requires { (w : R.World) → Simulates (R.StandFor w) (R.first w) (R.second w) }
    ensures { (w : R.World) → SessionsFollow (R.StandFor w) (R.first w) (R.second w) }
{}

/// Where one rule of steps stands for another, a scan by the one is a scan by the other.
pub fn scans_follow<R: Simulation>()
    requires { (w : R.World) → Simulates (R.StandFor w) (R.first w) (R.second w) }
    ensures { (w : R.World) → ScansFollow (R.StandFor w) (R.first w) (R.second w) }
{}

/// A node that answers one more request answers all of them.
pub fn talks_on()
    ensures { NodeTalksOn }
{}

/// An event leads a node to one reply and one node.
pub fn one_step()
    ensures { NodeOneStep }
{}

/// A scan of a node has one text and one exit status.
pub fn one_scan()
    ensures { NodeOneScan }
{
    one_step();
}
