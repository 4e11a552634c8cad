// The program: a journal from standard input, its lines to standard output. What a turn does is in crates/journal_turns.
#![tactic(auto)]

ghost use Rattle.std.specs.Prelude.{◌+◌, ◌*◌, ◌≤◌, length};
ghost use Rattle.lent.specs.Lists.{output_of};
ghost use Rattle.journal_calls.specs.Desk.{tables_of};
ghost use Rattle.journal_turns.specs.Runs.{Ended, Completed};

use journal_calls::desk::Desk;
use journal_turns::turn::{Program, take_turn};
use lent::{Index, Lists};
use std::io::{Print, Read, Stdin, Stdout};

// Two lists for all pages, and a line that has them.
const FOUND: usize = journal_calls::commands::PAGES as usize;

const LINE: usize = 24 + 22 * FOUND;

// The lengths of the program's tables: they suffice for any settings, at most 8 blocks and at most 64 symbols.
const SETTINGS: usize = layout::settings::LENGTH;

const NODES: usize = layout::nodes::WORDS * (journal_calls::commands::NODES as usize);

const PAGES: usize = (2 + 8) * FOUND;

const SKETCHES: usize = 64 * FOUND;

const WORKING: usize = 17;

// Reads until the buffer is full, the input ends or a read fails; how many bytes now stand at its beginning.
fn read_full(input: &mut Stdin, bytes: &mut [u8]) -> usize
    ensures { result ≤ length bytes.new }
{
    let mut done = 0;
    while done < bytes.len() {
        match input.read(&mut bytes[done..]) {
            Ok(0) | Err(_) => break,
            Ok(n) => done += n,
        }
    }
    done
}

// A line; of length 0, none. A write that fails is passed over.
fn write_line(out: Stdout, line: &[u8]) {
    let _ = out.write_all(line);
}

fn write_last(out: Stdout, count: usize)
    requires { count ≤ 65536 }
{
    let mut line = [0u8; 24];
    let n = journal_lines::last_line(count as u32, &mut line);
    let _ = out.write_all(&line[..n]);
}

// All commands, as far as they go, on the program's tables; the lines are made in its buffer. The offset reached is given.
fn run_on(out: Stdout, program: &mut Program<'_>, bytes: &[u8]) -> usize
    requires bytes_len_bound { length bytes.now ≤ 65536 }
    ensures ended { Ended bytes.now (tables_of program.old.desk) (output_of program.old.desk.lists) (tables_of program.new.desk) (output_of program.new.desk.lists) result }
    ensures upper_bound { result ≤ 65536 }
{
    let mut at = 0;
    let mut m = 0;
    loop {
        let turn = take_turn(program, bytes, at, m);
        write_line(out, &program.line[..turn.length]);
        at = turn.at;
        m = turn.m;
        if !turn.going {
            return at;
        }
    }
}

// The program's tables, for its capacities and any settings, and its buffer for a line.
fn run(out: Stdout, bytes: &[u8]) -> usize
    requires { length bytes.now ≤ 65536 }
    ensures completed { Completed bytes.now result }
    ensures upper_bound { result ≤ 65536 }
{
    let mut settings = [0u32; SETTINGS];
    let mut nodes = [0u32; NODES];
    let mut pages = [0u32; PAGES];
    let mut sketches = [0u8; SKETCHES];
    let mut working = [0u32; WORKING];
    let mut found = [0u16; FOUND];
    let mut distances = [0u16; FOUND];
    let mut line = [0u8; LINE];
    let mut program = Program {
        desk: Desk {
            index: Index {
                settings: &mut settings,
                nodes: &mut nodes,
                pages: &mut pages,
            },
            sketches: &mut sketches,
            working: &mut working,
            lists: Lists {
                pages: &mut found,
                distances: &mut distances,
            },
        },
        line: &mut line,
    };
    run_on(out, &mut program, bytes)
}

fn main(rt: HostRuntime) {
    let mut bytes = [0u8; 65536];
    let n = read_full(&mut rt.stdin(), &mut bytes);
    let count = run(rt.stdout(), &bytes[..n]);
    write_last(rt.stdout(), count);
}
