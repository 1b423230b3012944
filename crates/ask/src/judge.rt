// A question as it is put, judged: its code names a relationship, its window is on the ruler, and its day is one that trips can run.
ghost use Rattle.std.specs.Prelude.{◌≡◌};
ghost use Rattle.ruler.specs.Made.{scale};
ghost use Rattle.ask.specs.QuestionJudged.{judged_of};

use layout::{Refusal, Rejection, window_outcome};
use ruler::Ruler;
use trip::{Asking, Question, relationship_of};

// 9, 4, 5 and 17, in this order.
pub fn judge(ruler: Ruler, asking: Asking) -> Result<Question, Rejection>
    ensures { result ≡ judged_of (scale ruler) asking }
{
    let relationship = relationship_of(asking.code).ok_or(Refusal::NoRelationship)?;
    window_outcome(ruler, asking.window, asking.day)?;
    Ok(Question {
        window: asking.window,
        relationship,
        day: asking.day,
    })
}
