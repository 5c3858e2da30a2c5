//! Laws of delay lines and stages.

ghost use Rattle.std.specs.Prelude.{◌≡◌, ℕ, ◌+◌, ◌-◌, ◌*◌, ◌%◌, ◌<◌, ◌≤◌, List, [], ◌++◌, length, replicate, slice_index_or};
ghost use Rattle.delay_line.specs.Lines.{held_after, given_for, item_of, delayed};
ghost use Rattle.delay_line.specs.Stages.{Layout, PassesOn, StandsFor, stage_item, stage_given};
ghost use Rattle.delay_line.specs.Adjusted.{AdjustedStandsFor, AdjustedFeeds};

/// A stream put off: the fill before its first item, then its items. A second delay adds to the
/// first, and items that come later change nothing.
pub fn delay_law<T>()
    ensures early { (d : ℕ) (fill : T) (stream : ℕ → T) (n : ℕ) → n < d → delayed d fill stream n ≡ fill }
    ensures late { (d : ℕ) (fill : T) (stream : ℕ → T) (n : ℕ) → d ≤ n → delayed d fill stream n ≡ stream (n - d) }
    ensures twice { (a b : ℕ) (fill : T) (first second : ℕ → T) (n : ℕ)
        → (b ≤ n → second (n - b) ≡ delayed a fill first (n - b))
        → delayed b fill second n ≡ delayed (a + b) fill first n }
    ensures prefix { (d : ℕ) (fill : T) (first second : ℕ → T) (n : ℕ)
        → ((k : ℕ) → k ≤ n → first k ≡ second k)
        → delayed d fill first n ≡ delayed d fill second n }
{}

/// A line that stands for `h` and is fed `x`: it stands for `h` followed by `x`, and item by item
/// it gives the stream of its inputs, put off by its delay.
pub fn line_law<T>()
    ensures start { (delay : ℕ) (fill : T) → held_after delay fill [] ≡ replicate delay fill }
    ensures count { (delay : ℕ) (fill : T) (h : List T) → length (held_after delay fill h) ≡ delay }
    ensures next { (delay : ℕ) (fill : T) (h x y old new : List T)
        → old ≡ held_after delay fill h → length y ≡ length x → old ++ x ≡ y ++ new
        → new ≡ held_after delay fill (h ++ x) }
    ensures given { (delay : ℕ) (fill : T) (h x y old new : List T)
        → old ≡ held_after delay fill h → length y ≡ length x → old ++ x ≡ y ++ new
        → given_for delay fill (h ++ x) ≡ given_for delay fill h ++ y }
    ensures item { (delay : ℕ) (fill : T) (h x y old new : List T)
        → old ≡ held_after delay fill h → length y ≡ length x → old ++ x ≡ y ++ new
        → (n : ℕ) → n < length x
        → slice_index_or y n fill ≡ delayed delay fill (item_of fill (h ++ x)) (length h + n) }
    ensures given_item { (delay : ℕ) (fill : T) (h : List T) (n : ℕ) → n < length h
        → slice_index_or (given_for delay fill h) n fill ≡ delayed delay fill (item_of fill h) n }
{}

/// A stage that stands for `h`, whole turns, and is fed `x`, whole turns: it stands for `h`
/// followed by `x`, and item n that it gives in its life is item n less its path's delay in
/// turns, times the paths, of its inputs.
pub fn stage_law<T>()
    ensures start { (l : Layout T) (held : ℕ → List T)
        → ((p : ℕ) → p < l.paths → held p ≡ replicate (l.path_delay p) l.zero)
        → StandsFor l held [] }
    ensures count { (l : Layout T) (held : ℕ → List T) (h : List T) → StandsFor l held h
        → (p : ℕ) → p < l.paths → length (held p) ≡ l.path_delay p }
    ensures next { (l : Layout T) (old new : ℕ → List T) (h x y : List T)
        → StandsFor l old h → length h % l.paths ≡ 0 → length y ≡ length x → PassesOn l old x y new
        → StandsFor l new (h ++ x) }
    ensures given { (l : Layout T) (old new : ℕ → List T) (h x y : List T)
        → StandsFor l old h → length h % l.paths ≡ 0 → length x % l.paths ≡ 0 → length y ≡ length x → PassesOn l old x y new
        → stage_given l (h ++ x) ≡ stage_given l h ++ y }
    ensures item { (l : Layout T) (old new : ℕ → List T) (h x y : List T)
        → StandsFor l old h → length h % l.paths ≡ 0 → length x % l.paths ≡ 0 → length y ≡ length x → PassesOn l old x y new
        → (n : ℕ) → n < length x
        → slice_index_or y n l.zero ≡ stage_item l (item_of l.zero (h ++ x)) (length h + n) }
    ensures given_item { (l : Layout T) (h : List T) (n : ℕ) → n < length h
        → slice_index_or (stage_given l h) n l.zero ≡ stage_item l (item_of l.zero h) n }
{}

/// A line and a stage behind it, which is fed what the line gives: their delays add up.
pub fn adjusted_law<T>()
    ensures start { (l : Layout T) (adjustment : ℕ) (held : ℕ → List T)
        → StandsFor l held [] → AdjustedStandsFor l adjustment (replicate adjustment l.zero) held [] }
    ensures next { (l : Layout T) (adjustment : ℕ) (h x middle output line new_line : List T) (held new_held : ℕ → List T)
        → AdjustedStandsFor l adjustment line held h → AdjustedFeeds l line held x middle output new_line new_held
        → AdjustedStandsFor l adjustment new_line new_held (h ++ x) }
    ensures item { (l : Layout T) (adjustment : ℕ) (h x middle output line new_line : List T) (held new_held : ℕ → List T)
        → AdjustedStandsFor l adjustment line held h → AdjustedFeeds l line held x middle output new_line new_held
        → (n : ℕ) → n < length x
        → slice_index_or output n l.zero
        ≡ delayed (adjustment + l.paths * l.path_delay ((length h + n) % l.paths)) l.zero (item_of l.zero (h ++ x)) (length h + n) }
{}
