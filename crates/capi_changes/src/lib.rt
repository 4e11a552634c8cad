// The calls for C that may change an index: tables as a pointer and a length, the refusal's number as the result. No logic of their own:
// each contract is the call's. include/vetchdawn.h declares them.
#![tactic(auto)]

ghost use Rattle.std.specs.Prelude.{◌≡◌, []};
ghost use Rattle.meaning.specs.Rights.{join, leave, grant, revoke};
ghost use Rattle.meaning.specs.Ledger.{opening, add, drop, settings_given};
ghost use Rattle.promises.specs.Tables.{tables};
ghost use Rattle.promises.specs.Store.{outcome};
ghost use Rattle.promises.specs.Relation.{number_alone, Promised, OnSettings, OnStore};
ghost use Rattle.add_laws.specs.Add.{add_page};
ghost use Rattle.drop_laws.specs.After.{drop_page};

use layout::Numbers;
use lent::Index;
use refusals::answer_number;
use rights::Change;

#[unsafe(no_mangle)]
pub extern "C" fn vetch_open(
    settings: &mut [u32],
    nodes: &mut [u32],
    pages: &mut [u32],
    sketches: &[u8],
    working: &[u32],
    b: u32,
    m: u32,
    q: u32,
    page_capacity: u32,
    node_capacity: u32,
    thresholds: &[u16],
) -> u32
    ensures { Promised (opening (settings_given b m q page_capacity node_capacity thresholds.now)) (tables settings.old nodes.old pages.old sketches.now working.now) (number_alone result) (tables settings.new nodes.new pages.new sketches.now working.now) }
{
    let mut index = Index {
        settings,
        nodes,
        pages,
    };
    let h = Numbers::new(b, m, q, page_capacity, node_capacity);
    answer_number(open::open(&mut index, sketches, working, h, thresholds))
}

#[unsafe(no_mangle)]
pub extern "C" fn vetch_add(
    settings: &mut [u32],
    nodes: &mut [u32],
    pages: &mut [u32],
    sketches: &mut [u8],
    page: u32,
    class: u32,
    sketch: &[u8],
) -> u32
    ensures on_store { OnStore (add page «class» sketch.now) (tables settings.old nodes.old pages.old sketches.old []) result (tables settings.new nodes.new pages.new sketches.new []) }
    ensures model { outcome result (tables settings.new nodes.new pages.new sketches.new []) ≡ add_page (tables settings.old nodes.old pages.old sketches.old []) page «class» sketch.now }
{
    let mut index = Index {
        settings,
        nodes,
        pages,
    };
    answer_number(add_page::add::add(&mut index, sketches, page, class, sketch))
}

#[unsafe(no_mangle)]
pub extern "C" fn vetch_drop(
    settings: &mut [u32],
    nodes: &mut [u32],
    pages: &mut [u32],
    sketches: &[u8],
    page: u32,
) -> u32
    ensures on_store { OnStore (drop page) (tables settings.old nodes.old pages.old sketches.now []) result (tables settings.new nodes.new pages.new sketches.now []) }
    ensures model { outcome result (tables settings.new nodes.new pages.new sketches.now []) ≡ drop_page (tables settings.old nodes.old pages.old sketches.now []) page }
{
    let mut index = Index {
        settings,
        nodes,
        pages,
    };
    answer_number(drop_page::drop::drop_page(&mut index, sketches, page))
}

#[tactic(auto, unfolding(rights::specs::Changes::change_meant))]
#[unsafe(no_mangle)]
pub extern "C" fn vetch_join(settings: &mut [u32], reader: u32, group: u32) -> u32
    ensures { OnSettings (join reader group) settings.old result settings.new }
{
    answer_number(register::change(settings, Change::Join { reader, group }))
}

#[tactic(auto, unfolding(rights::specs::Changes::change_meant))]
#[unsafe(no_mangle)]
pub extern "C" fn vetch_leave(settings: &mut [u32], reader: u32, group: u32) -> u32
    ensures { OnSettings (leave reader group) settings.old result settings.new }
{
    answer_number(register::change(settings, Change::Leave { reader, group }))
}

#[tactic(auto, unfolding(rights::specs::Changes::change_meant))]
#[unsafe(no_mangle)]
pub extern "C" fn vetch_grant(settings: &mut [u32], group: u32, class: u32) -> u32
    ensures { OnSettings (grant group class) settings.old result settings.new }
{
    answer_number(register::change(settings, Change::Grant { group, class }))
}

#[tactic(auto, unfolding(rights::specs::Changes::change_meant))]
#[unsafe(no_mangle)]
pub extern "C" fn vetch_revoke(settings: &mut [u32], group: u32, class: u32) -> u32
    ensures { OnSettings (revoke group class) settings.old result settings.new }
{
    answer_number(register::change(settings, Change::Revoke { group, class }))
}
