// The form of one command: questions 1 to 3.
// Commands are told by their byte, and by no enum: each of these is asked of any byte, known or not.
#![tactic(auto)]

ghost use Rattle.std.specs.Prelude.{◌≡◌};
ghost use Rattle.meaning.specs.Journal.{known, operand_bytes, in_place};
ghost use Rattle.meaning.specs.Journal.{form as form_number};
ghost use Rattle.refusals.specs.Refusals.{answer_number};

use refusals::Refusal;

// Is the command byte known?
#[tactic(auto, unfolding(meaning::specs::Journal::entries, meaning::specs::Journal::known, meaning::specs::Lists::any))]
pub fn is_known(c: u8) -> bool
    ensures { result ≡ known c }
{
    matches!(c, b'I' | b'A' | b'D' | b'J' | b'L' | b'G' | b'R' | b'S')
}

// Is it I exactly where it is the first command? A mark of 0 stands for a later one: a byte and no bool, as any byte may be asked of here and in `form`, as in C.
#[tactic(auto, unfolding(meaning::specs::Journal::in_place))]
pub fn is_in_place(mark: u8, c: u8) -> bool
    ensures { result ≡ in_place mark c }
{
    (mark == 0) != (c == b'I')
}

// How many bytes its operands have, with m symbols a sketch.
#[tactic(auto, unfolding(meaning::specs::Journal::entries, meaning::specs::Journal::operand_bytes))]
pub fn operand_bytes(m: u8, c: u8) -> usize
    ensures { result ≡ operand_bytes m c }
{
    match c {
        b'I' => 5,
        b'A' => 3 + m as usize,
        b'S' => 2 + m as usize,
        _ => 2,
    }
}

// The form of the command at the beginning of the bytes, refused by the first question that says no.
#[tactic(auto, unfolding(meaning::specs::Journal::form, meaning::specs::Refusal::first_no))]
pub fn form(m: u8, mark: u8, bytes: &[u8]) -> Result<(), Refusal>
    ensures { answer_number result ≡ form_number m mark bytes.now }
{
    let Some((&c, operands)) = bytes.split_first() else {
        return Err(Refusal::UnknownCommand);
    };
    if !is_known(c) {
        return Err(Refusal::UnknownCommand);
    }
    if !is_in_place(mark, c) {
        return Err(Refusal::MisplacedCommand);
    }
    if operands.len() < operand_bytes(m, c) {
        return Err(Refusal::MissingOperands);
    }
    Ok(())
}
