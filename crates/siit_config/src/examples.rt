//! Worked configurations, each the contract of a function with no body.
ghost use Rattle.siit_config.specs.Examples.{
  APairIsAccepted,
  ACustomerIsAccepted,
  TopLevelIsRefused,
  DevicesAreRefused,
  NestedPrefixesAreAccepted,
  PoolsAreRead,
  PoolsAreRefused,
};

/// The definition of the configuration gives the worked examples. There is nothing to run.
pub fn configuration_examples()
    ensures pair { APairIsAccepted }
    ensures customer { ACustomerIsAccepted }
    ensures top_level { TopLevelIsRefused }
    ensures devices { DevicesAreRefused }
    ensures nested { NestedPrefixesAreAccepted }
    ensures pools { PoolsAreRead }
    ensures refused_pools { PoolsAreRefused }
{}
