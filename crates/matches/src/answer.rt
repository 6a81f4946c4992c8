// The route that was found, written at the front of the output.
ghost use Rattle.std.specs.Prelude.{◌≡◌};
ghost use Rattle.octets.specs.Outcome.{given};
ghost use Rattle.routes.specs.Answers.{matched_by, matched_told};
ghost use Rattle.octets.specs.Outputs.{Leaves};
ghost use Rattle.matches.specs.Scanning.{best_in, Answerable};

use crate::scan::Best;
use octets::parts;
use places::geometry::PLACE;
use places::output;
use routes::MatchedRoute;

// The best route written, or, where there is none, the output untouched.
pub(crate) fn answer(places: &[u8], best: Option<Best>, output: &mut [u8]) -> Option<MatchedRoute>
    requires { Answerable places.now best output.old }
    ensures { Leaves (matched_by (given (best_in places.now best)) output.old) (matched_told (Ok result)) output.new }
{
    let best = best?;
    let sizes = output::write_route(parts::between(places, best.start, PLACE), output);
    Some(MatchedRoute {
        tier: best.tier,
        nlri_size: sizes.nlri,
        attribute_size: sizes.attribute,
    })
}
