// The commands of a journal, read out of its bytes at an offset.
ghost use Rattle.std.specs.Prelude.{◌≡◌, ◌+◌, ◌≤◌, length, take, drop};
ghost use Rattle.meaning.specs.Journal.{byte_at, word_at, taken, mark_at};
ghost use Rattle.journal.specs.Steps.{change_of, command_at, Stepped, reached_by};

use journal_form::{form, operand_bytes};
use refusals::Refusal;
use rights::Change;

// A command with its operands. Symbols are told by the offset where they begin in the journal's bytes.
#[derive(Clone, Copy, Debug, PartialEq, Eq)]
pub enum Command {
    Open {
        b: u32,
        m: u8,
        q: u32,
        threshold: u16,
    },
    Add {
        page: u32,
        class: u32,
        symbols: usize,
    },
    Drop {
        page: u32,
    },
    Register(Change),
    Search {
        reader: u32,
        radius: u32,
        symbols: usize,
    },
}

// What stands at an offset: a command and the offset behind it, a command that 1 to 3 refuse, or nothing more. Where a step leads does
// not hang on how a refusal is told: by a `Refusal`, as the reader does, or by another type, as its number.
#[derive(Clone, Copy, Debug, PartialEq, Eq)]
pub enum Step<R> {
    Taken { command: Command, to: usize },
    Refused(R),
    End,
}

// Byte k, or 0 behind the end.
pub fn byte_at(bytes: &[u8], k: usize) -> u8
    ensures { result ≡ byte_at bytes.now k }
{
    bytes.get(k).copied().unwrap_or(0)
}

// The two bytes at k and k + 1, the low one first.
#[tactic(auto, unfolding(meaning::specs::Journal::word_at))]
pub fn word_at(bytes: &[u8], k: usize) -> u16
    requires { k ≤ 4 }
    ensures { result ≡ word_at bytes.now k }
{
    u16::from_le_bytes([byte_at(bytes, k), byte_at(bytes, k + 1)])
}

// The m symbols that begin at an offset.
pub fn symbols_at(bytes: &[u8], at: usize, m: u8) -> &[u8]
    requires { at + m ≤ length bytes.now }
    ensures { result.now ≡ take m (drop at bytes.now) }
{
    let end = at + m as usize;
    &bytes[at..end]
}

// J, L, G or R with its two operands. Told by its byte, as in journal_form.
#[tactic(auto, unfolding(crate::specs::Steps::change_of))]
fn change_of(c: u8, x: u32, y: u32) -> Change
    ensures { result ≡ change_of c x y }
{
    match c {
        b'J' => Change::Join {
            reader: x,
            group: y,
        },
        b'L' => Change::Leave {
            reader: x,
            group: y,
        },
        b'G' => Change::Grant { group: x, class: y },
        _ => Change::Revoke { group: x, class: y },
    }
}

// The command at an offset whose form is right.
#[tactic(auto, unfolding(crate::specs::Steps::command_at, crate::specs::Steps::command_of), using(crate::proofs::Steps::rest))]
fn command_at(bytes: &[u8], at: usize, m: u8) -> Command
    requires { at + taken m (drop at bytes.now) ≤ length bytes.now }
    ensures { result ≡ command_at bytes.now at }
{
    let own = &bytes[at..];
    let c = byte_at(own, 0);
    let x = u32::from(byte_at(own, 1));
    let y = u32::from(byte_at(own, 2));
    match c {
        b'I' => Command::Open {
            b: x,
            m: byte_at(own, 2),
            q: u32::from(byte_at(own, 3)),
            threshold: word_at(own, 4),
        },
        b'A' => Command::Add {
            page: u32::from(word_at(own, 1)),
            class: u32::from(byte_at(own, 3)),
            symbols: at + 4,
        },
        b'D' => Command::Drop {
            page: u32::from(word_at(own, 1)),
        },
        b'S' => Command::Search {
            reader: x,
            radius: y,
            symbols: at + 3,
        },
        _ => Command::Register(change_of(c, x, y)),
    }
}

// The mark of the command at an offset, a byte as `form` takes it: the first one stands at 0.
#[tactic(auto, unfolding(meaning::specs::Journal::mark_at))]
fn mark_at(at: usize) -> u8
    ensures { result ≡ mark_at at }
{
    u8::from(at == 0)
}

// What stands at an offset, with m symbols a sketch.
#[tactic(auto, unfolding(meaning::specs::Journal::form_at, meaning::specs::Journal::taken))]
pub fn next_at(bytes: &[u8], at: usize, m: u8) -> Step<Refusal>
    ensures { Stepped m bytes.now at result }
{
    if bytes.len() <= at {
        return Step::End;
    }
    let own = &bytes[at..];
    if let Err(refusal) = form(m, mark_at(at), own) {
        return Step::Refused(refusal);
    }
    let behind = at + 1 + operand_bytes(m, byte_at(own, 0));
    Step::Taken {
        command: command_at(bytes, at, m),
        to: behind,
    }
}

// The offset reached by a step from another: that behind a command taken; else it stays.
#[tactic(auto, unfolding(crate::specs::Steps::reached_by))]
pub fn reached<R: Copy>(step: Step<R>, at: usize) -> usize
    ensures { result ≡ reached_by step at }
{
    match step {
        Step::Taken { command: _, to } => to,
        Step::Refused(_) | Step::End => at,
    }
}
