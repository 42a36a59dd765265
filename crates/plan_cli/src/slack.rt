//! The slack of an activity.
ghost use Rattle.std.specs.Prelude.{◌<◌};
ghost use Rattle.mrcpsp.specs.Project.{size};
ghost use Rattle.mrcpsp.specs.Schedule.{IsFeasible};
ghost use Rattle.plan_cli.specs.Slack.{IsSlack};

use mrcpsp::Fitting;

/// How many periods later the activity could start, if all others stay where they are.
pub(crate) fn slack_of(fitting: &Fitting<'_>, activity: usize) -> u32
    requires feasible { IsFeasible fitting.now.project.now fitting.now.schedule.now }
    requires activity { activity < size fitting.now.project.now }
    ensures { IsSlack fitting.now.project.now fitting.now.schedule.now activity result }
{
    let finish = fitting.finish(activity);
    let mut latest = fitting.makespan();
    for after in 0..fitting.project.size() {
        if fitting.project.precedes(activity, after) {
            latest = latest.min(fitting.start(after));
        }
    }
    latest - finish
}
