//! Laws about maps, lists and sums.
ghost use Rattle.std.specs.FinMap.Entries.{find};
ghost use Rattle.words36.specs.declared.names.FileName.{FileName};
ghost use Rattle.std.specs.Option.{option_map};
ghost use Rattle.std.specs.Prelude.{◌≡◌, ◌≢◌, ◌+◌, ℕ, List, None, Some};
ghost use Rattle.spec_image.specs.Files.{name_cmp};
ghost use Rattle.spec_image.specs.Maps.{EachOnce, FinMap, empty, entries, from_entries, get, insert, map_values};
ghost use Rattle.spec_image.specs.Maps.{remove, size, sum_over, total};

/// Proves that a map is determined by its answers, and that a change of it changes the answer at one key only.
pub fn map_laws()
    ensures same { (m n : FinMap name_cmp ℕ) → ((k : FileName) → get m k ≡ get n k) → m ≡ n }
    ensures nothing { (k : FileName) → get (empty {X = ℕ} {R = name_cmp}) k ≡ None }
    ensures inserted { (m : FinMap name_cmp ℕ) (k q : FileName) (v : ℕ) → (get (insert m k v) k ≡ Some v)
        × (q ≢ k → get (insert m k v) q ≡ get m q) }
    ensures removed { (m : FinMap name_cmp ℕ) (k q : FileName) → (get (remove m k) k ≡ None)
        × (q ≢ k → get (remove m k) q ≡ get m q) }
{}

/// Proves that the map of a list answers what a scan of the list finds, and that a map is the map of its own list, in
/// which no key comes twice.
pub fn list_laws()
    ensures made { (es : List (FileName × ℕ)) (k : FileName) → get (from_entries {R = name_cmp} es) k
        ≡ find name_cmp k es }
    ensures again { (m : FinMap name_cmp ℕ) → EachOnce name_cmp (entries m) × (from_entries (entries m) ≡ m) }
    ensures mapped { (f : ℕ → ℕ) (m : FinMap name_cmp ℕ) (k : FileName)
        → get (map_values f m) k ≡ option_map f (get m k) }
{}

/// Proves that a change of a map changes a sum over it by the value that is put in or taken out, and its size by one.
pub fn sum_laws()
    ensures inserted { (f : ℕ → ℕ) (m : FinMap name_cmp ℕ) (k : FileName) (v : ℕ) → get m k ≡ None
        → sum_over f (insert m k v) ≡ f v + sum_over f m }
    ensures removed { (f : ℕ → ℕ) (m : FinMap name_cmp ℕ) (k : FileName) (v : ℕ) → get m k ≡ Some v
        → sum_over f m ≡ f v + sum_over f (remove m k) }
    ensures made { (f : ℕ → ℕ) (es : List (FileName × ℕ)) → EachOnce name_cmp es
        → sum_over f (from_entries {R = name_cmp} es) ≡ total (λ e. f e.1) es }
    ensures grows { (m : FinMap name_cmp ℕ) (k : FileName) (v : ℕ) → get m k ≡ None → size (insert m k v) ≡ size m + 1 }
    ensures shrinks { (m : FinMap name_cmp ℕ) (k : FileName) (v : ℕ) → get m k ≡ Some v
        → size m ≡ size (remove m k) + 1 }
{}
