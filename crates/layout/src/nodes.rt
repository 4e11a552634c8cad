// The words of the node table: a link with a byte above it, where the words of a node stand, and what a node is by its state.
// Nodes are linked by numbers in one slice of words: the table is lent, and an index allocates nothing. A link is a number and 1 more, and
// 0 links to none, in the words of the table and where they are handed on.
// That the slice is long enough for its nodes is a clause (`NodeTable`): nodes lie in lent tables of 32-bit words, by rule. That a node, a
// slot or a link lies in the table is a clause too: each is an index into what is lent.
ghost use Rattle.std.specs.Prelude.{◌≡◌, ◌≤◌, ◌<◌, set};
ghost use Rattle.layout.specs.Nodes.{most_nodes, link_base, link_of, byte_of, chain_word, with_link, state_at, head_at};
ghost use Rattle.layout.specs.Pages.{most_pages};
ghost use Rattle.layout.specs.Tables.{NodeTable};
ghost use Rattle.layout.specs.States.{word_of, kind_of, first_of, count_of, one_more, longer, shorter, next_free, with_free, with_count};

// The words of a node; of these the heads, which stand behind as many others.
pub const WORDS: usize = 10;

pub const HEADS: usize = 8;

pub const OTHERS: usize = 2;

// The steps of a walk for each node: to it, up, and to each of its chains.
pub const STEPS: usize = 10;

// A chain word is a link and, times this, a byte.
pub const LINKS: u32 = 524288;

// The states of a node that is not a leaf with pages: free, inner, and a leaf without.
#[derive(Clone, Copy, Debug, PartialEq, Eq)]
pub enum State {
    Free,
    Inner,
    Empty,
}

impl State {
    // The word of the table that stands for it.
    pub fn word(self) -> u32
        ensures { result ≡ word_of self }
    {
        match self {
            State::Free => 0,
            State::Inner => 65536,
            State::Empty => 131072,
        }
    }
}

// The state of a leaf with pages is the link to the first and, times this, their number. Both are below it.
const COUNTS: u32 = 65536;

const MOST: u32 = 65535;

// The link in a chain word or a head.
pub fn link_of(w: u32) -> u32
    ensures { result ≡ link_of w }
{
    w % LINKS
}

// The byte in a chain word.
pub fn byte_of(w: u32) -> u32
    ensures { result ≡ byte_of w }
{
    w / LINKS
}

pub fn chain_word(byte: u32, link: u32) -> u32
    requires { (byte < 8192) × (link < link_base) }
    ensures { result ≡ chain_word byte link }
{
    link + byte * LINKS
}

// The word with another link.
pub fn with_link(w: u32, link: u32) -> u32
    requires { link < link_base }
    ensures { result ≡ with_link w link }
{
    w - w % LINKS + link
}

// Where the state of node x stands, of a table of cap nodes.
pub fn state_at(cap: usize, x: usize) -> usize
    requires { (cap ≤ most_nodes) × (x < cap) }
    ensures { result ≡ state_at cap x }
{
    cap + x
}

// Where the head of chain g of node x stands.
pub fn head_at(cap: usize, x: usize, g: usize) -> usize
    requires { (cap ≤ most_nodes) × (x < cap) × (g < 8) }
    ensures { result ≡ head_at cap x g }
{
    2 * cap + 8 * x + g
}

#[derive(Clone, Copy, Debug, PartialEq, Eq)]
pub enum Kind {
    Free,
    Inner,
    // by the link to its first page
    Leaf(u32),
}

// What node x is.
#[tactic(auto, unfolding(crate::specs::States::kind_of))]
pub fn kind_of(nodes: &[u32], cap: usize, x: usize) -> Kind
    requires node_table { NodeTable cap nodes.now }
    requires x_lt_cap { x < cap }
    ensures { result ≡ kind_of nodes.now cap x }
{
    let state = nodes[state_at(cap, x)];
    if state == State::Free.word() {
        return Kind::Free;
    }
    if state == State::Inner.word() {
        return Kind::Inner;
    }
    Kind::Leaf(state % COUNTS)
}

// The link to the first page of leaf x; 0 of another node. No Option: 0 is the link to none, in the table too.
#[tactic(auto, unfolding(crate::specs::States::kind_of))]
pub fn first_page(nodes: &[u32], cap: usize, x: usize) -> u32
    requires node_table { NodeTable cap nodes.now }
    requires x_lt_cap { x < cap }
    ensures { result ≡ first_of (kind_of nodes.now cap x) }
{
    match kind_of(nodes, cap, x) {
        Kind::Leaf(first) => first,
        Kind::Free | Kind::Inner => 0,
    }
}

// The number of pages that stands in leaf x.
#[tactic(auto, unfolding(crate::specs::States::count_of))]
pub fn page_count(nodes: &[u32], cap: usize, x: usize) -> u32
    requires node_table { NodeTable cap nodes.now }
    requires x_lt_cap { x < cap }
    ensures value { result ≡ count_of nodes.now cap x }
    ensures inside { result ≤ most_pages }
{
    let state = nodes[state_at(cap, x)];
    if state == State::Empty.word() {
        return 0;
    }
    state / COUNTS
}

// The link of free node x to the next.
pub fn next_free(nodes: &[u32], cap: usize, x: usize) -> u32
    requires node_table { NodeTable cap nodes.now }
    requires x_lt_cap { x < cap }
    ensures { result ≡ next_free nodes.now x }
{
    nodes[x]
}

// Node x is free, and links to the next.
pub fn set_free(nodes: &mut [u32], cap: usize, x: usize, next: u32)
    requires node_table { NodeTable cap nodes.old }
    requires x_lt_cap { x < cap }
    ensures { nodes.new ≡ with_free nodes.old cap x next }
{
    set_state(nodes, cap, x, State::Free);
    nodes[x] = next;
}

// Node x has another state.
pub fn set_state(nodes: &mut [u32], cap: usize, x: usize, state: State)
    requires node_table { NodeTable cap nodes.old }
    requires x_lt_cap { x < cap }
    ensures { nodes.new ≡ set nodes.old (state_at cap x) (word_of state) }
{
    nodes[state_at(cap, x)] = state.word();
}

// A number with one page more; on damaged tables the greatest stays.
fn one_more(count: u32) -> u32
    ensures value { result ≡ one_more count }
    ensures inside { result ≤ most_pages }
{
    if count < MOST {
        return count + 1;
    }
    MOST
}

// Leaf x has so many pages, and its first page is at a link.
#[tactic(auto, unfolding(crate::specs::States::with_count))]
fn set_leaf(nodes: &mut [u32], cap: usize, x: usize, first: u32, count: u32)
    requires node_table { NodeTable cap nodes.old }
    requires x_lt_cap { x < cap }
    requires small { (first ≤ most_pages) × (count ≤ most_pages) }
    ensures { nodes.new ≡ with_count nodes.old cap x first count }
{
    nodes[state_at(cap, x)] = first + count * COUNTS;
}

// Leaf x has one page more, and its first page is at a link.
#[tactic(auto, unfolding(crate::specs::States::longer))]
pub fn lengthen(nodes: &mut [u32], cap: usize, x: usize, first: u32)
    requires node_table { NodeTable cap nodes.old }
    requires x_lt_cap { x < cap }
    requires first_le_most_pages { first ≤ most_pages }
    ensures { nodes.new ≡ longer nodes.old cap x first }
{
    let count = one_more(page_count(nodes, cap, x));
    set_leaf(nodes, cap, x, first, count);
}

// Leaf x has one page less, but some, and its first page is at a link; on damaged tables 0 stays.
// Not one function with `lengthen`: a flag would say what the two names say.
#[tactic(auto, unfolding(crate::specs::States::shorter))]
pub fn shorten(nodes: &mut [u32], cap: usize, x: usize, first: u32)
    requires node_table { NodeTable cap nodes.old }
    requires x_lt_cap { x < cap }
    requires first_le_most_pages { first ≤ most_pages }
    ensures { nodes.new ≡ shorter nodes.old cap x first }
{
    let count = page_count(nodes, cap, x).saturating_sub(1);
    set_leaf(nodes, cap, x, first, count);
}
