// The header's words by their number, and its names in either letter case.
ghost use Rattle.std.specs.Prelude.{◌≡◌};
ghost use Rattle.words.specs.Words.{words};
ghost use Rattle.words.specs.Numbers.{number as number_of};
ghost use Rattle.grids.specs.Headers.{lower as lowerOf, lowered, same as sameBytes, word_at, size_of, whole_of};
ghost use Rattle.grids.specs.Measures.{measured};
ghost use Rattle.grids.specs.Given.{measure_in};
ghost use Rattle.grids.specs.Spans.{WordAt};

use crate::measures::Measure;
use crate::wholes::whole;
use words::{Span, next_word, number};

#[tactic(auto, unfolding(crate::specs::Headers::lower))]
fn lower(b: u8) -> u8
    ensures { result ≡ lowerOf b }
{
    b.to_ascii_lowercase()
}

// Whether a word is a name, its letters in either case.
fn is_name(word: &[u8], name: &[u8]) -> bool
    ensures { result ≡ sameBytes (lowered word.now) name.now }
{
    if word.len() != name.len() {
        return false;
    }
    for i in 0..word.len() {
        if lower(word[i]) != name[i] {
            return false;
        }
    }
    true
}

// 0, and no Option, where a word is no number or one below zero, since `size_of` says so.
fn size(word: &[u8]) -> u32
    ensures { result ≡ size_of (number_of word.now) }
{
    match number(word) {
        Some(n) if 0 <= n => n.unsigned_abs(),
        _ => 0,
    }
}

// The place of a text's word by its number, counted from 0; past the last there is none.
pub(crate) fn span_at(text: &[u8], k: usize) -> Span
    ensures { WordAt text.now k result.start result.end }
{
    let mut word = next_word(text, 0);
    for _ in 0..k {
        word = next_word(text, word.end);
    }
    word
}

// The word itself; an empty one past the last.
fn word_at(text: &[u8], k: usize) -> &[u8]
    ensures { result.now ≡ word_at (words text.now) k }
{
    let word = span_at(text, k);
    &text[word.start..word.end]
}

pub(crate) fn named_at(text: &[u8], k: usize, name: &[u8]) -> bool
    ensures { result ≡ sameBytes (lowered (word_at (words text.now) k)) name.now }
{
    is_name(word_at(text, k), name)
}

// Columns, rows or another count that a word says; 0 where it is no number, or one below zero.
pub fn size_at(text: &[u8], k: usize) -> u32
    ensures { result ≡ size_of (number_of (word_at (words text.now) k)) }
{
    size(word_at(text, k))
}

pub(crate) fn measure_at(text: &[u8], k: usize) -> Measure
    ensures { result ≡ measure_in (measured (word_at (words text.now) k)) }
{
    Measure::in_word(word_at(text, k))
}

pub(crate) fn whole_at(text: &[u8], k: usize) -> i32
    ensures { result ≡ whole_of (number_of (word_at (words text.now) k)) }
{
    whole(word_at(text, k))
}
