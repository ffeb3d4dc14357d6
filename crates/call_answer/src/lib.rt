// How a call is answered once it is refused, or an insertion was tried; specs/ has what it is for a call to meet the
// outcome that the definition gives.
#![tactic(auto)]

ghost use Rattle.std.specs.Prelude.{◌≡◌, Err};
ghost use Rattle.call_answer.specs.Meets.{answered_of};

use model::{Answered, Record, Refusal};
use table_insert::InsertError;

// What a refused call is answered with: the record is as it was.
pub fn refused(refusal: Refusal, rec: Record) -> Answered
    ensures { result ≡ record { answer = Err refusal; «record» = rec } }
{
    Answered {
        answer: Err(refusal),
        record: rec,
    }
}

// What an insertion is answered with: `value`, or why it was not done, with the record as it was.
pub fn answered(inserted: Result<Record, InsertError>, rec: Record, value: u64) -> Answered
    ensures { result ≡ answered_of inserted rec value }
{
    match inserted {
        Ok(after) => Answered {
            answer: Ok(value),
            record: after,
        },
        Err(error) => refused(Refusal::from(error), rec),
    }
}
