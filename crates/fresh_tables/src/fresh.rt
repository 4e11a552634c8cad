// The node table of an opening: each root a leaf with no pages, and every other node free, in one chain in rising order.
ghost use Rattle.std.specs.Prelude.{◌≡◌, map, ◌+◌, ◌*◌, ◌≤◌, ◌<◌, length};
ghost use Rattle.std.proofs.lemmas.List.Edits.{sets};
ghost use Rattle.meaning.specs.Lists.{onto, upto};
ghost use Rattle.layout.specs.Headers.{given_by};
ghost use Rattle.layout.specs.Nodes.{most_nodes};
ghost use Rattle.layout.specs.Lengths.{nodes_length};
ghost use Rattle.promises.specs.Answers.{free_link, fresh_chain, fresh_state, fresh_nodes};

use layout::Header;
use layout::nodes::State;

// The link to node x of the free chain, or none past the last node.
#[tactic(auto, unfolding(promises::specs::Answers::free_link))]
pub fn free_link(cap: usize, x: usize) -> u32
    requires { (cap ≤ most_nodes) × (x ≤ cap) }
    ensures { result ≡ free_link cap x }
{
    if x < cap { (x + 1) as u32 } else { 0 }
}

#[tactic(auto, unfolding(promises::specs::Answers::fresh_chain))]
fn chain_word(h: Header, x: usize) -> u32
    requires { (h.nodes ≤ most_nodes) × (x < h.nodes) }
    ensures { result ≡ fresh_chain (given_by h) x }
{
    if x < h.q {
        0
    } else {
        free_link(h.nodes, x + 1)
    }
}

#[tactic(auto, unfolding(promises::specs::Answers::fresh_chain, meaning::specs::Lists::upto))]
fn write_chain(nodes: &mut [u32], h: Header)
    requires { (h.nodes ≤ most_nodes) × (h.nodes ≤ length nodes.old) }
    ensures { nodes.new ≡ sets nodes.old 0 (map (fresh_chain (given_by h)) (upto h.nodes)) }
{
    for x in 0..h.nodes {
        nodes[x] = chain_word(h, x);
    }
}

#[tactic(auto, unfolding(promises::specs::Answers::fresh_state))]
fn state_word(h: Header, x: usize) -> u32
    ensures { result ≡ fresh_state (given_by h) x }
{
    let state = if x < h.q { State::Empty } else { State::Free };
    state.word()
}

// Not one function with `write_chain`: it would take the word as a closure, whose contract is longer than the loop.
#[tactic(auto, unfolding(promises::specs::Answers::fresh_state, meaning::specs::Lists::upto))]
fn write_states(nodes: &mut [u32], h: Header)
    requires { (h.nodes ≤ most_nodes) × (h.nodes + h.nodes ≤ length nodes.old) }
    ensures { nodes.new ≡ sets nodes.old h.nodes (map (fresh_state (given_by h)) (upto h.nodes)) }
{
    for x in 0..h.nodes {
        nodes[h.nodes + x] = state_word(h, x);
    }
}

#[tactic(auto, unfolding(layout::specs::Lengths::nodes_length, promises::specs::Answers::fresh_nodes))]
pub fn write_nodes(nodes: &mut [u32], h: Header)
    requires h_in_bounds { nodes_length (given_by h) ≤ length nodes.old }
    ensures { nodes.new ≡ onto (fresh_nodes (given_by h)) nodes.old }
{
    write_chain(nodes, h);
    write_states(nodes, h);
    words::zero_run(
        nodes,
        layout::nodes::OTHERS * h.nodes,
        layout::nodes::HEADS * h.nodes,
    );
}
