//! Worked choices from a pool.
ghost use Rattle.siit_roles.specs.Examples.{OneAddressServesAlways, TwoAddressesTakeTurns};

/// The definition of the pool's choice gives the worked examples. There is nothing to run.
pub fn pool_examples()
    ensures two { TwoAddressesTakeTurns }
    ensures one { OneAddressServesAlways }
{}
