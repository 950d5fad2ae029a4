//! Laws of lists in order, of the order of rows, of counts and of descriptors. Each function here only states laws, which its contract proves.

ghost use Rattle.std.specs.Prelude.{ℕ, ◌≡◌, ◌↔◌, List, [], ◌∷◌, Some, length, map, Contains, IsPermutation, IsSorted};
ghost use Rattle.std.specs.List.{IsDistinct};
ghost use Rattle.std.specs.List.Sorted.{IsStrictlySortedBy};
ghost use Rattle.std.specs.declared.cmp.Ordering.{Ordering};
ghost use Rattle.std.specs.declared.cmp.Ordering.TheVariants.{Equal};
ghost use Rattle.std.specs.Ordering.{eq_by_cmp, int_cmp, is_lt};
ghost use Rattle.std.specs.Cmp.{IsStrictWeakOrder, IsTotalOrder};
ghost use Rattle.ct_base.specs.declared.lists.Value.{Value};
ghost use Rattle.rs_result.specs.declared.descriptors.ResultPart.{ResultPart};
ghost use Rattle.rs_result.specs.declared.rows.OrderBy.{OrderBy};
ghost use Rattle.rs_result.specs.declared.rows.ResultRow.{ResultRow};
ghost use Rattle.rs_result.specs.Comparing.{rank_cmp, ranked, value_cmp};
ghost use Rattle.rs_result.specs.Counts.{AreCountsOf, Counted, value_counts};
ghost use Rattle.rs_result.specs.Grammar.{IsDescriptorText};
ghost use Rattle.rs_result.specs.Orders.{HaveOwnKeys, own_key};
ghost use Rattle.rs_result.specs.Reading.{descriptor};
ghost use Rattle.rs_result.specs.Sorting.{HasOneOrder, sorted_by};

/// What `sorted_by` gives has the elements of the list, as many of them, in order where all elements compare (ties are allowed); and
/// where none tie, it is the only such list. A list in order stays as it is. Comparisons that agree on the elements give the same list.
pub fn sorting_laws<T>()
    ensures members { (cmp : T → T → Ordering) (xs : List T) → IsPermutation xs (sorted_by cmp xs) }
    ensures count { (cmp : T → T → Ordering) (xs : List T) → length (sorted_by cmp xs) ≡ length xs }
    ensures none { (cmp : T → T → Ordering) → sorted_by cmp [] ≡ [] }
    ensures one { (cmp : T → T → Ordering) (x : T) → sorted_by cmp (x ∷ []) ≡ x ∷ [] }
    ensures order { (cmp : T → T → Ordering) (xs : List T) → IsStrictWeakOrder (λ x y. is_lt (cmp x y)) → IsSorted cmp (sorted_by cmp xs) }
    ensures stays { (cmp : T → T → Ordering) (xs : List T) → IsSorted cmp xs → sorted_by cmp xs ≡ xs }
    ensures only { (cmp : T → T → Ordering) (xs : List T) → IsTotalOrder cmp → IsDistinct (eq_by_cmp cmp) xs → HasOneOrder cmp xs }
    ensures agree { (c d : T → T → Ordering) (xs : List T) → ((x y : T) → Contains xs x → Contains xs y → c x y ≡ d x y) → sorted_by c xs ≡ sorted_by d xs }
{}

/// Images in order are the images of the elements in the order of their images.
pub fn sorting_through<T, U>()
    ensures { (cmp : U → U → Ordering) (f : T → U) (xs : List T) → sorted_by cmp (map f xs) ≡ map f (sorted_by (λ a b. cmp (f a) (f b)) xs) }
{}

/// Any keys order rows totally.
pub fn rank_laws()
    ensures { (by : List OrderBy) → IsTotalOrder (rank_cmp by) }
{}

/// Rows whose own keys strictly rise have keys of their own, and stay as they are where no key is asked for.
pub fn row_laws<T>()
    ensures differ { (rows : List (ResultRow T)) → IsStrictlySortedBy int_cmp (map own_key rows) → HaveOwnKeys rows }
    ensures stay { (rows : List (ResultRow T)) → IsStrictlySortedBy int_cmp (map own_key rows) → sorted_by (λ a b. rank_cmp [] (ranked a) (ranked b)) rows ≡ rows }
{}

/// The counts of values, as they are computed, meet the relation that defines them, and no other list does. Values tie only where they
/// are the same.
pub fn count_laws()
    ensures are { (vs : List Value) → AreCountsOf vs (value_counts vs) }
    ensures only { (vs : List Value) (cs : List Counted) → AreCountsOf vs cs → cs ≡ value_counts vs }
    ensures tie { (v w : Value) → value_cmp v w ≡ Equal → v ≡ w }
{}

/// What is read of a text is what the grammar says, so a text is one descriptor at most.
pub fn descriptor_laws()
    ensures read { (text : List ℕ) (parts : List ResultPart) → IsDescriptorText text parts ↔ (descriptor text ≡ Some parts) }
    ensures one { (text : List ℕ) (parts others : List ResultPart) → IsDescriptorText text parts → IsDescriptorText text others → parts ≡ others }
{}
