// Search for a reader: the numbers of the pages open to him whose sketches are within a radius of a query, the nearest on top, and
// their distances.
ghost use Rattle.layout.specs.Headers.{numbers};
ghost use Rattle.std.specs.Prelude.{◌≡◌, [], ◌+◌};
ghost use Rattle.refusals.specs.Refusals.{answer_number, answer_value};
ghost use Rattle.lent.specs.Lists.{held_with, output_of, SameLists};
ghost use Rattle.words.specs.Bits.{zeroed};
ghost use Rattle.promises.specs.Readings.{SearchPromise};
ghost use Rattle.marks.specs.Marks.{summary_of, Room, Summarised, list_of};
ghost use Rattle.hits.specs.Trials.{tried};
ghost use Rattle.traversal.specs.Meets.{meet_blocks};
ghost use Rattle.search_laws.specs.Answer.{Answered, AnsweredBy};

use crate::questions;
use hits::trial::Trial;
use lent::{Lists, View};
use listing::scope::Scope;
use refusals::Refusal;
use traversal::quest::Quest;

// Walks the tries, then lists what was met and passed; 14 where a link was not in order or a budget did not last. No page is marked
// yet; the maps are cleared.
#[tactic(auto, unfolding(words::specs::Bits::zeroed))]
fn find(quest: &Quest<'_>, map: &mut [u32], lists: &mut Lists<'_>) -> Result<u32, Refusal>
    requires room { Room map.old quest.now.words }
    requires words_value { list_of map.old quest.now.words ≡ [] }
    requires summarised { Summarised map.old quest.now.words }
    ensures same { SameLists lists.old lists.new }
    ensures answered { Answered (meet_blocks (numbers quest.now.trial.probe.header) quest.now.nodes.now quest.now.trial.pages.now quest.now.trial.query.now quest.now.trial.probe.radius) (tried quest.now.trial) (output_of lists.old) (answer_number result) (answer_value result) (output_of lists.new) }
    ensures map_after { map.new ≡ zeroed map.old 0 (quest.now.words + summary_of quest.now.words) }
{
    let mut counts = [0u32; 65];
    let met = traversal::all_blocks::meet_blocks(quest, map, &mut counts);
    let Some(tally) = met else {
        marks::clear_marks(map, quest.words);
        return Err(Refusal::Unsound);
    };
    // no `From`: a scope is made of a quest here alone
    let scope = Scope {
        sketches: quest.trial.sketches,
        query: quest.trial.query,
        probe: quest.trial.probe,
        words: quest.words,
    };
    listing::list_marks(&scope, map, &mut counts, tally.count, lists)
}

// Asks 5, 6, 7, 10 and 11, then searches, and answers how many pages were found. Past 6, refused or not, the needed part of the
// working table is 0 afterwards.
pub fn search(
    view: View<'_>,
    working: &mut [u32],
    reader: u32,
    radius: u32,
    sketch: &[u8],
    lists: &mut Lists<'_>,
) -> Result<u32, Refusal>
    ensures same { SameLists lists.old lists.new }
    ensures search_promise { SearchPromise (held_with view.entry working.old) reader radius sketch.now (output_of lists.old) (answer_number result) (answer_value result) (output_of lists.new) working.new }
    ensures model { AnsweredBy (held_with view.entry working.old) reader radius sketch.now (output_of lists.old) (answer_number result) (answer_value result) (output_of lists.new) }
{
    let h = entry::enter(view, working)?;
    let words = layout::lengths::map_words(h);
    marks::clear_marks(working, words);
    questions::ask_query(h, reader, radius, sketch)?;
    let classes = rights::entry(view.settings, reader as usize);
    let probe = hits::probe_of(h, classes, sketch, radius);
    let trial = Trial {
        pages: view.pages,
        sketches: view.sketches,
        query: sketch,
        probe,
    };
    let quest = Quest {
        trial,
        nodes: view.nodes,
        words,
    };
    find(&quest, working, lists)
}
