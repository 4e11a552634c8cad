// Opening: takes settings and capacities, and leaves an empty register, fresh trees and no pages, whatever the tables held.
#![tactic(auto)]

ghost use Rattle.std.specs.Prelude.{◌≡◌, ◌&&◌, ◌≤◌, length};
ghost use Rattle.meaning.specs.Lists.{onto};
ghost use Rattle.meaning.specs.Ledger.{opening};
ghost use Rattle.layout.specs.Headers.{given_by, numbers};
ghost use Rattle.layout.specs.Settings.{settings_length};
ghost use Rattle.layout.specs.Header.{with_thresholds};
ghost use Rattle.layout.specs.Lengths.{nodes_length, pages_length};
ghost use Rattle.promises.specs.Tables.{tables};
ghost use Rattle.lent.specs.Lists.{held_with, SameTables};
ghost use Rattle.refusals.specs.Refusals.{answer_number};
ghost use Rattle.promises.specs.Answers.{long_settings, long_for, fresh_settings, fresh_nodes, fresh_pages};
ghost use Rattle.promises.specs.Calls.{OpenPromise};

use fresh_tables::fresh;
use layout::settings::{LENGTH, LEVELS, MEMBERS, REGISTER};
use layout::{Header, Numbers};
use lent::{Index, View};
use refusals::Refusal;

// 5: is every table long enough?
#[tactic(auto, unfolding(promises::specs::Answers::long_settings, promises::specs::Answers::long_for, promises::specs::Answers::long_nodes, promises::specs::Answers::long_pages, promises::specs::Answers::long_working))]
fn long_enough(h: Header, view: View<'_>, working: &[u32]) -> bool
    ensures { result ≡ long_settings (held_with view.entry working.now) && long_for (given_by h) (held_with view.entry working.now) (opening (given_by h)) }
{
    (LENGTH <= view.settings.len()) & (entry::long_store(h, view) & entry::long_working(h, working))
}

// The settings table: the header, a register with no pairs, and the free chain's first link.
#[tactic(auto, unfolding(promises::specs::Answers::fresh_settings))]
fn write_settings(settings: &mut [u32], h: Header, thresholds: &[u16; LEVELS])
    requires settings_length_in_bounds { settings_length ≤ length settings.old }
    ensures { settings.new ≡ onto (fresh_settings (with_thresholds (numbers h) thresholds.now)) settings.old }
{
    settings::write_header(settings, h, thresholds);
    words::zero_run(settings, MEMBERS, REGISTER);
    settings::set_free_link(settings, fresh::free_link(h.nodes, h.q));
}

// Every table that an opening writes, over its beginning.
#[tactic(auto, unfolding(promises::specs::Answers::fresh_settings, promises::specs::Answers::fresh_nodes, promises::specs::Answers::fresh_pages))]
fn lay_out(index: &mut Index<'_>, h: Header, thresholds: &[u16; LEVELS])
    requires settings_length_in_bounds { settings_length ≤ length index.old.settings.now }
    requires h_in_bounds { nodes_length (given_by h) ≤ length index.old.nodes.now }
    requires h_in_bounds_2 { pages_length (given_by h) ≤ length index.old.pages.now }
    ensures same { SameTables index.old index.new }
    ensures settings_after { index.new.settings.now ≡ onto (fresh_settings (with_thresholds (numbers h) thresholds.now)) index.old.settings.now }
    ensures nodes_after { index.new.nodes.now ≡ onto (fresh_nodes (given_by h)) index.old.nodes.now }
    ensures pages_after { index.new.pages.now ≡ onto (fresh_pages (given_by h)) index.old.pages.now }
{
    let settings = &mut *index.settings;
    let nodes = &mut *index.nodes;
    let pages = &mut *index.pages;
    write_settings(settings, h, thresholds);
    fresh::write_nodes(nodes, h);
    words::zero_run(pages, 0, layout::lengths::pages_length(h));
}

// Sets up an index with the numbers given and these thresholds.
pub fn open(
    index: &mut Index<'_>,
    sketches: &[u8],
    working: &[u32],
    given: Numbers,
    thresholds: &[u16],
) -> Result<(), Refusal>
    ensures same { SameTables index.old index.new }
    ensures open_promise { OpenPromise (with_thresholds given thresholds.now) (tables index.old.settings.now index.old.nodes.now index.old.pages.now sketches.now working.now) (answer_number result) index.new.settings.now index.new.nodes.now index.new.pages.now }
{
    if !settings::limits(given, thresholds.len()) {
        return Err(Refusal::BadSettings);
    }
    let h = Header::new(given);
    if !long_enough(h, index.view(sketches), working) {
        return Err(Refusal::ShortTable);
    }
    lay_out(index, h, thresholds.try_into().unwrap());
    Ok(())
}
