ghost use Rattle.std.specs.Prelude.{◌≡◌, ◌↔◌, IsTrue, IfOk};

use crate::Kind;
use mrcpsp::{Project, same};
use std::alloc::{AllocError, Global};

/// A `Plan` is a project and the kind of search for it.
#[derive(Debug, Drop)]
pub struct Plan {
    pub project: Project,
    pub kind: Kind,
}

impl Plan {
    pub fn clone_in(&self, alloc: Global) -> Result<Plan, AllocError>
        ensures { IfOk result (λ copy. copy ≡ self.now) }
    {
        Ok(Plan {
            project: self.project.clone_in(alloc)?,
            kind: self.kind,
        })
    }
}

pub fn same_plan(one: &Plan, other: &Plan) -> bool
    ensures { IsTrue result ↔ (one.now ≡ other.now) }
{
    one.kind == other.kind && same(&one.project, &other.project)
}
