//! A law of configurations: the proved contract of a function that does nothing.
ghost use Rattle.farm_config.specs.Config.{FaultsAreWhatIsNoConfiguration};

/// A draft has a fault exactly if it breaks a limit or a name is ill formed.
pub fn faults_are_what_is_no_configuration()
    ensures { FaultsAreWhatIsNoConfiguration }
{}
