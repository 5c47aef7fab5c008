// The answer of an import for C, with its summary: the set of the layer indices that the target rests on, and the number of units. Without room for the two numbers
// the answer is 17 in place of the units, and every lower number as it is.
#![tactic(auto)]

ghost use Rattle.std.specs.Prelude.{◌≡◌, ◌≤◌, length};
ghost use Rattle.packet_answers.specs.Answers.{imported_answer};
ghost use Rattle.import_summaries.specs.Summaries.{with_summary, summary_after};

use c_answers::{accepted, refused};
use join_answers::Units;
use packet_answers::imported_answer;
use recording_imports::Unread;
use vocabulary::Refusal;

// The answer, and the summary where rows were joined.
pub fn summarise(imported: Result<Units, Unread>, summary: &mut [u64]) -> u64
    requires { 2 ≤ length summary.old }
    ensures answer { result ≡ imported_answer imported }
    ensures content { summary.new ≡ summary_after imported summary.old }
{
    match imported {
        Ok(joined) => {
            summary[0] = joined.closure;
            summary[1] = joined.units as u64;
            accepted(joined.rows)
        }
        Err(_) => imported_answer(imported),
    }
}

// The answer where the summary has no room.
pub fn without_summary(imported: Result<Units, Unread>) -> u64
    ensures { result ≡ imported_answer (with_summary 0 imported) }
{
    match imported {
        Ok(_) => refused(Refusal::NoRoom),
        Err(_) => imported_answer(imported),
    }
}
