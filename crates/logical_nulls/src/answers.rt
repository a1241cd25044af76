// What the null mask and the named strategies answer.
ghost use Rattle.std.specs.Prelude.{◌≡◌, Ok};
ghost use Rattle.logical_nulls.specs.Mask.{numbers_of, answer_on};

use crate::LogicalNulls;
use null_strategy::Route;

impl LogicalNulls {
    // What is answered on a route, for a mask of so many nulls.
    pub(crate) fn on(route: Route, nulls: usize) -> LogicalNulls
        ensures { numbers_of (Ok result) ≡ answer_on route nulls }
    {
        LogicalNulls {
            null_count: route.is_present(nulls).then_some(nulls),
            route,
        }
    }
}
