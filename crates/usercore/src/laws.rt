//! A law about the words that a step changes.
ghost use Rattle.std.specs.Prelude.{◌≡◌, ◌≤◌, ℕ, List, Some, length};
ghost use Rattle.spec_machine.specs.Common.{after_writes, dealt, data_words, setup};
ghost use Rattle.spec_machine.specs.declared.area.Area.{Area as Words};
ghost use Rattle.usercore.specs.Common.{ChangesWithin, setup_areas, in_areas, out_areas, after_in, after_out};

/// Proves that a step changes no words except those of its areas: dealing words out, a setup, an IN and an OUT.
pub fn steps_change_their_areas()
    ensures dealt { (core : List ℕ) (areas : List Words) (words : List ℕ)
        → ChangesWithin areas core (after_writes core (dealt areas words)) }
    ensures set_up { (core : List ℕ) (header size n : ℕ) (core' : List ℕ) → setup core header size n ≡ Some core'
        → ChangesWithin (setup_areas core header n) core core' }
    ensures filled { (core core' : List ℕ) (header size status : ℕ) (words : List ℕ) → length words ≤ data_words
        → after_in core header size status words ≡ Some core' → ChangesWithin (in_areas core header) core core' }
    ensures emptied { (core core' : List ℕ) (header size : ℕ) → after_out core header size ≡ Some core'
        → ChangesWithin (out_areas core header) core core' }
{}
