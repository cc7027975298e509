// What a session keeps besides its group.

use point_programs::Vars;
use shell_points::Points;

/// The points that are held in order of their numbers, how many were ever made, and the variables.
#[derive(Drop)]
pub(crate) struct PointsAndVariables {
    pub(crate) points: Points,
    pub(crate) made: u64,
    pub(crate) variables: Vars,
}
