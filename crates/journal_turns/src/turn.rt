// One turn of the program: what stands at the offset is read, carried out, and told in a line.
ghost use Rattle.std.specs.Prelude.{◌+◌, ◌*◌, ◌≤◌, ◌≡◌, cond, length, take};
ghost use Rattle.std.proofs.lemmas.List.Edits.{sets};
ghost use Rattle.promises.specs.Relation.{Answer};
ghost use Rattle.lent.specs.Lists.{output_of};
ghost use Rattle.refusals.specs.Refusals.{answer_number};
ghost use Rattle.journal.specs.Steps.{meant, symbols_end};
ghost use Rattle.journal_calls.specs.Desk.{SameDesk, tables_of};
ghost use Rattle.journal_turns.specs.Turns.{goes_on, state, Carried, Turned};

use journal::commands::{Command, Step};
use journal::reading::read;
use journal_answers::lines::{command_line, symbols_after};
use journal_calls::commands::execute;
use journal_calls::desk::Desk;
use journal_lines::refusal_line;
use refusals::Refusal;

// The tables, and a buffer that has room for the line of a search with as many hits as its lists have places.
#[derive(Drop)]
pub struct Program<'a> {
    pub desk: Desk<'a>,
    pub line: &'a mut [u8],
    pub ghost room: { (length desk.lists.pages.now ≤ 65535) × (24 + 22 * length desk.lists.pages.now ≤ length line.now) },
}

// Where a turn leaves the program: the offset reached, m, whether it goes on, and the length of the line to be written.
// No ControlFlow: offset, m and line mean the same where it stops.
#[derive(Clone, Copy)]
pub struct Turn {
    pub at: usize,
    pub m: u8,
    pub going: bool,
    // The length and not the line, as in journal_lines: the line stays in the program's buffer.
    pub length: usize,
}

// After 4 it stops.
#[tactic(auto, unfolding(crate::specs::Turns::goes_on))]
fn goes_on(outcome: Result<u32, Refusal>) -> bool
    ensures { result ≡ goes_on (answer_number outcome) }
{
    !matches!(outcome, Err(Refusal::BadSettings))
}

// The offset behind a command that does not stop it.
fn offset_after(going: bool, to: usize, at: usize) -> usize
    ensures { result ≡ cond going to at }
{
    if going { to } else { at }
}

// Carries out a command, behind which the offset is `to`, and puts its line at the beginning of the buffer.
#[tactic(auto, unfolding(journal::specs::Steps::meant))]
fn carry_out(
    program: &mut Program<'_>,
    bytes: &[u8],
    at: usize,
    m: u8,
    command: Command,
    to: usize,
) -> Turn
    requires at_bound { at ≤ 65536 }
    requires command_in_bounds { symbols_end m command ≤ length bytes.now }
    ensures carried { (a : Answer) × Carried (state (tables_of program.old.desk) (output_of program.old.desk.lists) at m) (meant m bytes.now command) to a (take result.length program.new.line.now) result.going (state (tables_of program.new.desk) (output_of program.new.desk.lists) result.at result.m) }
    ensures same_desk { SameDesk program.old.desk program.new.desk }
    ensures same_line { program.new.line.ghost_name ≡ program.old.line.ghost_name }
    ensures line_after { program.new.line.now ≡ sets program.old.line.now 0 (take result.length program.new.line.now) }
    ensures length_in_bounds { result.length ≤ length program.new.line.now }
{
    let desk = &mut program.desk;
    let line = &mut *program.line;
    let outcome = execute(desk, bytes, m, command);
    let length = command_line(command, outcome, at as u32, &desk.lists, line);
    let going = goes_on(outcome);
    Turn {
        at: offset_after(going, to, at),
        m: symbols_after(command, m),
        going,
        length,
    }
}

// One turn. The line is put at the beginning of the buffer. Bytes, offset and m are three: a reader is the first two, and m is a turn's.
pub fn take_turn(program: &mut Program<'_>, bytes: &[u8], at: usize, m: u8) -> Turn
    requires at_bound { at ≤ 65536 }
    ensures turned { Turned bytes.now (state (tables_of program.old.desk) (output_of program.old.desk.lists) at m) (take result.length program.new.line.now) result.going (state (tables_of program.new.desk) (output_of program.new.desk.lists) result.at result.m) }
    ensures same_desk { SameDesk program.old.desk program.new.desk }
    ensures same_line { program.new.line.ghost_name ≡ program.old.line.ghost_name }
    ensures line_after { program.new.line.now ≡ sets program.old.line.now 0 (take result.length program.new.line.now) }
    ensures length_in_bounds { result.length ≤ length program.new.line.now }
{
    match read(bytes, at, m) {
        Step::Taken { command, to } => carry_out(program, bytes, at, m, command, to),
        Step::Refused(refusal) => Turn {
            at,
            m,
            going: false,
            length: refusal_line(at as u32, refusal.number(), program.line),
        },
        Step::End => Turn {
            at,
            m,
            going: false,
            length: 0,
        },
    }
}
