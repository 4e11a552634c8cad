// How long each table must be for an opening: in words, the sketch table in bytes. proofs/Sizes.antt ties them to the settings.
ghost use Rattle.std.specs.Prelude.{◌≡◌};
ghost use Rattle.layout.specs.Headers.{given_by};
ghost use Rattle.layout.specs.Lengths.{nodes_length, pages_length, sketches_length, working_length};
ghost use Rattle.layout.specs.Working.{map_words, summary_words};

use crate::Header;

#[tactic(auto, unfolding(crate::specs::Lengths::nodes_length))]
pub fn nodes_length(h: Header) -> usize
    ensures { result ≡ nodes_length (given_by h) }
{
    crate::nodes::WORDS * h.nodes
}

#[tactic(auto, unfolding(crate::specs::Lengths::pages_length))]
pub fn pages_length(h: Header) -> usize
    ensures { result ≡ pages_length (given_by h) }
{
    (2 + h.q) * h.pages
}

#[tactic(auto, unfolding(crate::specs::Lengths::sketches_length))]
pub fn sketches_length(h: Header) -> usize
    ensures { result ≡ sketches_length (given_by h) }
{
    h.pages * h.m
}

// The words of the first map of the working table.
#[tactic(auto, unfolding(crate::specs::Working::map_words))]
pub fn map_words(h: Header) -> usize
    ensures { result ≡ map_words (given_by h) }
{
    let eighth = h.nodes.div_ceil(8);
    h.pages.max(eighth).div_ceil(32)
}

// The words of the second.
#[tactic(auto, unfolding(crate::specs::Working::summary_words))]
pub fn summary_words(h: Header) -> usize
    ensures { result ≡ summary_words (given_by h) }
{
    map_words(h).div_ceil(32)
}

#[tactic(auto, unfolding(crate::specs::Lengths::working_length))]
pub fn working_length(h: Header) -> usize
    ensures { result ≡ working_length (given_by h) }
{
    map_words(h) + summary_words(h)
}
