ghost use Rattle.fare_scheme.specs.Values.{SchemeValue};
ghost use Rattle.fare_scheme.specs.Facts.{IsScheme};
ghost use Rattle.fare_scheme.specs.Positions.{ArePositions, AreParentsKnown};

/// In a scheme an id has a position exactly where the position has that id, and what a product or a device
/// belongs to is registered.
pub fn registered_ids_have_positions()
    ensures positions { (scheme : SchemeValue) → IsScheme scheme → ArePositions scheme }
    ensures parents { (scheme : SchemeValue) → IsScheme scheme → AreParentsKnown scheme }
{}
