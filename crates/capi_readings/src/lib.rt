// The calls for C that change nothing of an index but its working table: tables as a pointer and a length, the refusal's number as the
// result. No logic of their own: each contract is the call's. include/vetchdawn.h declares them.
#![tactic(auto)]

ghost use Rattle.std.specs.Prelude.{◌≡◌, ◌≤◌, [], eqb, take, drop as skip};
ghost use Rattle.meaning.specs.Output.{output as lists};
ghost use Rattle.meaning.specs.Ledger.{search, check, reading, settings_given};
ghost use Rattle.promises.specs.Tables.{tables, show_tables};
ghost use Rattle.promises.specs.Readings.{start_shown, length_shown};
ghost use Rattle.promises.specs.Relation.{with_lists, with_verdict, Promised, OnShow};
ghost use Rattle.search_laws.specs.Answer.{AnsweredBy};
ghost use Rattle.fresh_tables.specs.Lengths.{lengths_of};

use layout::Numbers;
use lent::{Lists, View};
use refusals::number_and_value;

#[unsafe(no_mangle)]
pub extern "C" fn vetch_lengths(
    b: u32,
    m: u32,
    q: u32,
    page_capacity: u32,
    node_capacity: u32,
    settings: &mut u32,
    nodes: &mut u32,
    pages: &mut u32,
    sketches: &mut u32,
    working: &mut u32,
) -> u32
    ensures value { result ≡ (lengths_of (settings_given b m q page_capacity node_capacity [])).number }
    ensures settings_after { settings.new ≡ (lengths_of (settings_given b m q page_capacity node_capacity [])).settings }
    ensures nodes_after { nodes.new ≡ (lengths_of (settings_given b m q page_capacity node_capacity [])).nodes }
    ensures pages_after { pages.new ≡ (lengths_of (settings_given b m q page_capacity node_capacity [])).pages }
    ensures sketches_after { sketches.new ≡ (lengths_of (settings_given b m q page_capacity node_capacity [])).sketches }
    ensures working_after { working.new ≡ (lengths_of (settings_given b m q page_capacity node_capacity [])).working }
{
    let h = Numbers::new(b, m, q, page_capacity, node_capacity);
    match fresh_tables::lengths::needed(h) {
        Ok(needed) => {
            *settings = needed.settings;
            *nodes = needed.nodes;
            *pages = needed.pages;
            *sketches = needed.sketches;
            *working = needed.working;
            0
        }
        Err(refusal) => {
            *settings = 0;
            *nodes = 0;
            *pages = 0;
            *sketches = 0;
            *working = 0;
            refusal.number()
        }
    }
}

#[unsafe(no_mangle)]
pub extern "C" fn vetch_search(
    settings: &[u32],
    nodes: &[u32],
    pages: &[u32],
    sketches: &[u8],
    working: &mut [u32],
    reader: u32,
    radius: u32,
    sketch: &[u8],
    output: &mut [u16],
    distances: &mut [u16],
    count: &mut u32,
) -> u32
    ensures promised { Promised (reading (search reader radius sketch.now (lists output.old distances.old))) (tables settings.now nodes.now pages.now sketches.now working.old) (with_lists result count.new (lists output.new distances.new)) (tables settings.now nodes.now pages.now sketches.now working.new) }
    ensures model { AnsweredBy (tables settings.now nodes.now pages.now sketches.now working.old) reader radius sketch.now (lists output.old distances.old) result count.new (lists output.new distances.new) }
{
    let view = View {
        settings,
        nodes,
        pages,
        sketches,
    };
    let mut two = Lists {
        pages: output,
        distances,
    };
    let answer = search::search::search(view, working, reader, radius, sketch, &mut two);
    let (number, found) = number_and_value(answer);
    *count = found;
    number
}

// An exported function cannot return a part of a slice: the row is given by its start and length in the sketch table.
#[unsafe(no_mangle)]
pub extern "C" fn vetch_show(
    settings: &[u32],
    pages: &[u32],
    sketches: &[u8],
    reader: u32,
    page: u32,
    start: &mut u32,
    length: &mut u32,
) -> u32
    ensures on_show { OnShow reader page (show_tables settings.now pages.now sketches.now) result (take length.new (skip start.new sketches.now)) }
    ensures start_after { start.new ≡ start_shown (show_tables settings.now pages.now sketches.now) reader page }
    ensures length_after { length.new ≡ length_shown (show_tables settings.now pages.now sketches.now) reader page }
{
    match show_page::show::find_row(settings, pages, sketches, reader, page) {
        Ok(row) => {
            *start = row.start;
            *length = row.length;
            0
        }
        Err(refusal) => {
            *start = 0;
            *length = 0;
            refusal.number()
        }
    }
}

// The verdict for C is 1 for yes and 0 for no.
#[unsafe(no_mangle)]
pub extern "C" fn vetch_check(
    settings: &[u32],
    nodes: &[u32],
    pages: &[u32],
    sketches: &[u8],
    working: &mut [u32],
    sound: &mut u32,
) -> u32
    ensures promised { Promised (reading check) (tables settings.now nodes.now pages.now sketches.now working.old) (with_verdict result (eqb sound.new 1)) (tables settings.now nodes.now pages.now sketches.now working.new) }
    ensures sound_bound { sound.new ≤ 1 }
{
    let view = View {
        settings,
        nodes,
        pages,
        sketches,
    };
    match check_store::check(view, working) {
        Ok(verdict) => {
            *sound = verdict as u32;
            0
        }
        Err(refusal) => {
            *sound = 0;
            refusal.number()
        }
    }
}
