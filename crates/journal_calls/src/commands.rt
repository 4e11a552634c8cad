// A command of a journal is carried out: the call that it makes, on lent tables.
ghost use Rattle.std.specs.Prelude.{◌≤◌, ◌≡◌, length, replicate};
ghost use Rattle.meaning.specs.Ledger.{settings_given};
ghost use Rattle.promises.specs.Tables.{tables};
ghost use Rattle.promises.specs.Calls.{OpenPromise, RightsPromise};
ghost use Rattle.promises.specs.Readings.{SearchPromise};
ghost use Rattle.rights.specs.Changes.{change_meant};
ghost use Rattle.journal.specs.Steps.{meant, symbols_end};
ghost use Rattle.journal_answers.specs.Answers.{page_capacity, node_capacity};
ghost use Rattle.journal_calls.specs.Commands.{Executed};
ghost use Rattle.journal_calls.specs.Desk.{SameDesk, tables_of};
ghost use Rattle.lent.specs.Lists.{SameLists, SameTables, output_of};
ghost use Rattle.refusals.specs.Refusals.{answer_number, answer_value};

use crate::desk::Desk;
use add_page::add::add;
use drop_page::drop::drop_page;
use journal::commands::{Command, symbols_at};
use layout::Numbers;
use lent::{Index, Lists};
use refusals::Refusal;
use rights::Change;
use search::search::search;

// The capacities of the program's tables.
pub const PAGES: u32 = 512;

pub const NODES: u32 = 1024;

// What a call without a count comes to: accepted, its count is 0.
fn uncounted(answer: Result<(), Refusal>) -> Result<u32, Refusal>
    ensures number { answer_number result ≡ answer_number answer }
    ensures count { answer_number result ≡ 0 → answer_value result ≡ 0 }
{
    answer.map(|()| 0)
}

// Sets up the index, with one threshold for all levels.
fn open_levels(
    index: &mut Index<'_>,
    sketches: &[u8],
    working: &[u32],
    b: u32,
    m: u8,
    q: u32,
    threshold: u16,
) -> Result<(), Refusal>
    ensures same { SameTables index.old index.new }
    ensures open_promise { OpenPromise (settings_given b m q page_capacity node_capacity (replicate 64 threshold)) (tables index.old.settings.now index.old.nodes.now index.old.pages.now sketches.now working.now) (answer_number result) index.new.settings.now index.new.nodes.now index.new.pages.now }
{
    let thresholds = [threshold; 64];
    let header = Numbers::new(b, u32::from(m), q, PAGES, NODES);
    open::open(index, sketches, working, header, &thresholds)
}

// Searches in an index.
fn search_in(
    index: &Index<'_>,
    sketches: &[u8],
    working: &mut [u32],
    reader: u32,
    radius: u32,
    query: &[u8],
    output: &mut Lists<'_>,
) -> Result<u32, Refusal>
    ensures same { SameLists output.old output.new }
    ensures search_promise { SearchPromise (tables index.now.settings.now index.now.nodes.now index.now.pages.now sketches.now working.old) reader radius query.now (output_of output.old) (answer_number result) (answer_value result) (output_of output.new) working.new }
{
    search(index.view(sketches), working, reader, radius, query, output)
}

// A change of the register: on the settings table alone.
fn change_register(settings: &mut [u32], change: Change) -> Result<(), Refusal>
    ensures { RightsPromise (change_meant change) settings.old (answer_number result) settings.new }
{
    register::change(settings, change)
}

// Carries a command out, by a match: each call has operands of its own. A search gives its count, and any other 0. Its m symbols, where
// it has any, lie in the journal's bytes.
#[tactic(auto, unfolding(journal::specs::Steps::symbols_end, journal::specs::Steps::meant))]
pub fn execute(desk: &mut Desk<'_>, bytes: &[u8], m: u8, command: Command) -> Result<u32, Refusal>
    requires { symbols_end m command ≤ length bytes.now }
    ensures executed { Executed (meant m bytes.now command) (tables_of desk.old) (output_of desk.old.lists) (answer_number result) (answer_value result) (tables_of desk.new) (output_of desk.new.lists) }
    ensures same { SameDesk desk.old desk.new }
{
    match command {
        Command::Open {
            b,
            m: n,
            q,
            threshold: t,
        } => {
            let sketches = &mut *desk.sketches;
            let working = &mut *desk.working;
            uncounted(open_levels(&mut desk.index, sketches, working, b, n, q, t))
        }
        Command::Add {
            page,
            class,
            symbols,
        } => {
            let x = symbols_at(bytes, symbols, m);
            let sketches = &mut *desk.sketches;
            uncounted(add(&mut desk.index, sketches, page, class, x))
        }
        Command::Drop { page } => {
            let sketches = &mut *desk.sketches;
            uncounted(drop_page(&mut desk.index, sketches, page))
        }
        Command::Register(change) => uncounted(change_register(desk.index.settings, change)),
        Command::Search {
            reader,
            radius,
            symbols,
        } => {
            let x = symbols_at(bytes, symbols, m);
            let sketches = &mut *desk.sketches;
            let working = &mut *desk.working;
            let lists = &mut desk.lists;
            search_in(&desk.index, sketches, working, reader, radius, x, lists)
        }
    }
}
