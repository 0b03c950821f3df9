//! How spans of a region are related. Each function has an empty body: its clause is a law.
ghost use Rattle.std.specs.Prelude.{◌≡◌, ℕ, ◌+◌, ◌<◌, ◌≤◌, length, slice_index, slice_set, replicate};
ghost use Rattle.kp_region.specs.Words.{Words, IsSound, IsWithin, IsDisjoint, span_words, next_span, carved, written, copied, released};
ghost use Rattle.kp_region.specs.declared.span.Span.{Span};

/// A word of a span, by its index in the span, is the word of the region that `get` returns.
pub fn words_of_spans()
    ensures { (r : Words) (s : Span) (i : ℕ) → i < s.len → slice_index (span_words r s) i ≡ slice_index r.words (s.start + i) }
{}

/// A write into a span is a write into its list of words.
pub fn writes_land()
    ensures { (r : Words) (s : Span) (i v : ℕ) → i < s.len → span_words (written r s i v) s ≡ slice_set (span_words r s) i v }
{}

/// A write into a span doesn't change a disjoint span.
pub fn writes_stay_apart()
    ensures { (r : Words) (s t : Span) (i v : ℕ) → IsDisjoint s t → i < t.len → span_words (written r t i v) s ≡ span_words r s }
{}

/// After a copy both spans have the same contents.
pub fn copies_land()
    ensures { (r : Words) (from to : Span) → IsSound r → IsWithin from r → IsWithin to r → from.len ≡ to.len → span_words (copied r from to) to ≡ span_words r from }
{}

/// A copy doesn't change a span that is disjoint from its target.
pub fn copies_stay_apart()
    ensures { (r : Words) (s from to : Span) → IsSound r → IsWithin from r → IsWithin to r → from.len ≡ to.len → IsDisjoint s to → span_words (copied r from to) s ≡ span_words r s }
{}

/// The span that is carved next is within the region and contains zeros.
pub fn carved_spans_are_zeros()
    ensures { (r : Words) (n : ℕ) → IsSound r → span_words (carved r n) (next_span r n) ≡ replicate n 0 }
{}

/// The span that is carved next is disjoint from every existing span, and so from all carved before.
pub fn carved_spans_are_disjoint()
    ensures before { (r : Words) (s : Span) (n : ℕ) → IsWithin s r → IsDisjoint s (next_span r n) }
    ensures in_a_row { (r : Words) (n m : ℕ) → IsDisjoint (next_span r n) (next_span (carved r n) m) }
{}

/// Carving doesn't change any existing span within the region or its contents.
pub fn spans_survive_carving()
    ensures stands { (r : Words) (s : Span) (n : ℕ) → IsWithin s r → IsWithin s (carved r n) }
    ensures holds { (r : Words) (s : Span) (n : ℕ) → IsSound r → IsWithin s r → span_words (carved r n) s ≡ span_words r s }
{}

/// A span survives a later release of a mark above it.
pub fn spans_survive_release()
    ensures stands { (r : Words) (s : Span) (mark : ℕ) → s.start + s.len ≤ mark → IsWithin s (released r mark) }
    ensures holds { (r : Words) (s : Span) (mark : ℕ) → span_words (released r mark) s ≡ span_words r s }
{}

/// The number of words of a region never changes.
pub fn sizes_stay()
    ensures carved { (r : Words) (n : ℕ) → r.used + n ≤ length r.words → length (carved r n).words ≡ length r.words }
    ensures written { (r : Words) (s : Span) (i v : ℕ) → length (written r s i v).words ≡ length r.words }
    ensures copied { (r : Words) (from to : Span) → IsSound r → IsWithin from r → IsWithin to r → from.len ≡ to.len → length (copied r from to).words ≡ length r.words }
{}
