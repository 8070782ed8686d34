//! The tests for the pointers of a retrieval block.
ghost use Rattle.std.specs.Prelude.{◌≤◌, ◌↔◌, IsTrue, length};
ghost use Rattle.std.specs.List.{AllByRecursion};
ghost use Rattle.spec_image.specs.Common.{IsRun};
ghost use Rattle.retrieval.specs.Common.{run_of, runs_of, ArePointers};

use spec_image::layout::are_zeros;
use words36::Word;

/// Returns whether a word is a pointer: its left half, the count, isn't zero.
fn is_pointer(word: Word) -> bool
    ensures { IsTrue result ↔ IsRun (run_of word) }
{
    let count = word.left().bits();
    let _first = word.right().bits();
    count != 0
}

/// Returns whether each of the words is a pointer.
fn are_runs(words: &[Word]) -> bool
    ensures { IsTrue result ↔ AllByRecursion IsRun (runs_of words.now) }
{
    for word in words {
        if !is_pointer(*word) {
            return false;
        }
    }
    true
}

/// Returns whether the first `count` words are pointers, and those after them zero.
pub fn are_pointers(words: &[Word], count: usize) -> bool
    requires { count ≤ length words.now }
    ensures { IsTrue result ↔ ArePointers words.now count }
{
    are_runs(&words[..count]) && are_zeros(&words[count..])
}
