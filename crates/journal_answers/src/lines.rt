// What a command that was carried out writes, and m behind it. Its symbols are not looked at: in the contracts it has none.
ghost use Rattle.std.specs.Prelude.{◌+◌, ◌*◌, ◌≤◌, ◌≡◌, [], length};
ghost use Rattle.std.proofs.lemmas.List.Edits.{sets};
ghost use Rattle.journal.specs.Steps.{meant};
ghost use Rattle.journal_answers.specs.Answers.{answer};
ghost use Rattle.journal_answers.specs.Lines.{symbols_after, accepted_line, line_of};
ghost use Rattle.lent.specs.Lists.{output_of};
ghost use Rattle.refusals.specs.Refusals.{answer_number, answer_value};

use journal::commands::Command;
use journal_lines::{refusal_line, search_line};
use lent::Lists;
use refusals::Refusal;

// The line of an accepted command, at the beginning of a lent buffer. Its length is given; 0 where there is none.
#[tactic(auto, unfolding(journal::specs::Steps::meant, crate::specs::Lines::accepted_line))]
fn listing_line(command: Command, count: usize, lists: &Lists<'_>, line: &mut [u8]) -> usize
    requires count_in_bounds { (count ≤ length lists.now.pages.now) × (count ≤ length lists.now.distances.now) }
    requires found_len_bound { length lists.now.pages.now ≤ 65535 }
    requires found_in_bounds { 24 + 22 * length lists.now.pages.now ≤ length line.old }
    ensures line_after { line.new ≡ sets line.old 0 (accepted_line (meant 0 [] command) (answer 0 count (output_of lists.now))) }
    ensures value { result ≡ length (accepted_line (meant 0 [] command) (answer 0 count (output_of lists.now))) }
    ensures upper_bound { result ≤ length line.new }
{
    match command {
        Command::Search {
            reader,
            radius: _,
            symbols: _,
        } => search_line(
            reader,
            &lists.pages[..count],
            &lists.distances[..count],
            line,
        ),
        _ => 0,
    }
}

// The line of a command at an offset, by what it came to: refused, or the count of a search.
#[tactic(auto, unfolding(crate::specs::Lines::line_of, journal::specs::Steps::meant))]
pub fn command_line(
    command: Command,
    outcome: Result<u32, Refusal>,
    at: u32,
    lists: &Lists<'_>,
    line: &mut [u8],
) -> usize
    requires count_in_bounds { answer_number outcome ≡ 0 → (answer_value outcome ≤ length lists.now.pages.now) × (answer_value outcome ≤ length lists.now.distances.now) }
    requires found_len_bound { length lists.now.pages.now ≤ 65535 }
    requires found_in_bounds { 24 + 22 * length lists.now.pages.now ≤ length line.old }
    ensures line_after { line.new ≡ sets line.old 0 (line_of at (meant 0 [] command) (answer (answer_number outcome) (answer_value outcome) (output_of lists.now))) }
    ensures value { result ≡ length (line_of at (meant 0 [] command) (answer (answer_number outcome) (answer_value outcome) (output_of lists.now))) }
    ensures upper_bound { result ≤ length line.new }
{
    match outcome {
        Ok(count) => listing_line(command, count as usize, lists, line),
        Err(refusal) => refusal_line(at, refusal.number(), line),
    }
}

// m behind a command.
#[tactic(auto, unfolding(journal::specs::Steps::meant, crate::specs::Lines::symbols_after, meaning::specs::Journal::call_of))]
pub fn symbols_after(command: Command, m: u8) -> u8
    ensures { result ≡ symbols_after (meant 0 [] command) m }
{
    match command {
        Command::Open {
            b: _,
            m: n,
            q: _,
            threshold: _,
        } => n,
        _ => m,
    }
}
