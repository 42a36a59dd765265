//! The ends of the commands' help texts: examples and pages.

pub(crate) const CONFIG_HELP: &str = "The farm's configuration, a JSON file";

pub(crate) const STRICT_HELP: &str = "End with status 1 where a request was refused";

pub(crate) const CHECK_HELP: &str = "\
Example:

  $ farm check examples/first.mm
  activities 4 modes 5 renewable 1 nonrenewable 1 horizon 7

docs/FORMAT.md has the format and the faults.";

pub(crate) const REPLAY_HELP: &str = "\
Example:

  $ farm replay --config examples/farm.json examples/first.script

docs/PROTOCOL.md has the requests and the replies, docs/CONFIGURATION.md the configuration.";

pub(crate) const SERVE_HELP: &str = "\
Example:

  $ farm serve --config examples/farm.json --port 4711 --sessions 2

docs/PROTOCOL.md has the requests and the replies, docs/CONFIGURATION.md the configuration.";
