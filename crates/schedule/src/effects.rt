// The answer to one line, and its output line.
ghost use Rattle.std.specs.Prelude.{◌≡◌};
ghost use Rattle.schedule.specs.Schedule.{answer_to, board_after, line_output};

use board::Answer;
use board::refusals::Refusal;
use csv_lines::reading::read_line;
use csv_lines::{BadLine, Output};
use verbs::Checked;

// The answer to a line. The refusals are no `From` of a BadLine: it would have to stand in the crate of one of the two.
#[tactic(auto, unfolding(crate::specs::Schedule::answer_of, crate::specs::Schedule::board_after))]
pub(crate) fn answer_to(line: &[u8], checked: &mut Checked) -> Answer
    ensures answer { result ≡ answer_to line.now checked.old.board }
    ensures board { checked.new.board ≡ board_after checked.old.board result }
{
    match read_line(line) {
        Err(BadLine::TooLong) => Answer::refused(Refusal::LineTooLong, checked.board),
        Err(BadLine::NotThree) => Answer::refused(Refusal::NotThreeFields, checked.board),
        Ok((verb, x, y)) => checked.put(verb, x, y),
    }
}

// The output line of an answer.
#[tactic(auto, unfolding(crate::specs::Schedule::line_output))]
pub(crate) fn output_of(number: u64, answer: Answer) -> Output
    ensures { result ≡ line_output number answer }
{
    let tag = answer.outcome.tag();
    Output {
        number,
        fields: [
            answer.refusal_number(),
            answer.outcome.number(),
            tag.ts,
            u32::from(tag.console),
            answer.outcome.value(),
            u32::from(tag.life),
        ],
    }
}
