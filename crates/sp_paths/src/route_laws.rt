//! The theorems about routes. Each is the contract of a function that does nothing.

ghost use Rattle.sp_paths.specs.RouteLaws.{RoutesExist, RoutesAreOne, RoutesAreWalks, RoutesRise};

/// States that there is exactly one route to each vertex that a walk leads to; that it is a walk of the least length; and that no
/// vertex stands in it twice.
pub fn routes()
    ensures some { RoutesExist }
    ensures one { RoutesAreOne }
    ensures walk { RoutesAreWalks }
    ensures rises { RoutesRise }
{}
