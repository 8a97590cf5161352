//! Routes in the form for C.
ghost use Rattle.std.specs.Prelude.{◌≡◌};
ghost use Rattle.spt_c.specs.InUse.{route_in_use};
ghost use Rattle.spt_c.specs.Routes.{route_of};

use crate::answers::SptAnswer;
use sp_lists::{Outcome, RouteSize};

/// The result of a call for a route: a status; the vertex that is too far; the target's distance; the index of the invalid
/// vertex, 0 for the source and 1 for the target; and the number of vertices on the route. A field that the status doesn't use
/// is 0.
#[repr(C)]
#[derive(Clone, Copy, Debug, PartialEq, Eq)]
pub struct SptRoute {
    pub status: u32,
    pub vertex: u32,
    pub dist: u64,
    pub index: u64,
    pub count: u64,
}

impl SptRoute {
    /// Returns the route's size in the form for C, or why there is none.
    pub(crate) fn of(size: Result<RouteSize, Outcome>) -> SptRoute
        ensures { result ≡ route_of size }
    {
        match size {
            Ok(size) => SptRoute {
                status: 0,
                vertex: 0,
                dist: size.dist,
                index: 0,
                count: size.count as u64,
            },
            Err(told) => {
                let answer = SptAnswer::of(told);
                SptRoute {
                    status: answer.status,
                    vertex: answer.vertex,
                    dist: 0,
                    index: answer.index,
                    count: 0,
                }
            }
        }
    }

    /// Returns the result of a call for a place in use.
    pub(crate) fn in_use() -> SptRoute
        ensures { result ≡ route_in_use }
    {
        SptRoute {
            status: 12,
            vertex: 0,
            dist: 0,
            index: 0,
            count: 0,
        }
    }
}
