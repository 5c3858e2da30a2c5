//! Two partners, one behind the other.

ghost use Rattle.std.specs.Prelude.{◌≡◌, ℕ, ◌+◌, ◌*◌, ◌<◌, List, ◌++◌, length, slice_index_or};
ghost use Rattle.delay_line.specs.Lines.{item_of, delayed};
ghost use Rattle.delay_line.specs.Stages.{ArePartners, PairStandsFor, stage_given};

use crate::stage::Stage;

/// Feeds the first of two partners the turn, and the second what the first gives, which stands in
/// `middle` afterwards. What the second gives replaces the turn: it is the turn that went in DELAY
/// turns before, or ZERO on each path where there was none.
pub fn through<S: Stage, P: Stage<Item = S::Item>>(
    first: &mut S,
    second: &mut P,
    turn: &mut [S::Item],
    middle: &mut [S::Item],
)
    requires partners { ArePartners (S.layout first.old) (P.layout second.old) }
    requires turn { length turn.old ≡ (S.layout first.old).paths }
    requires middle { length middle.old ≡ (S.layout first.old).paths }
    ensures stands { (h : List S.Item)
        → PairStandsFor (S.layout first.old) (S.held first.old) (P.layout second.old) (P.held second.old) h
        → PairStandsFor (S.layout first.new) (S.held first.new) (P.layout second.new) (P.held second.new) (h ++ turn.old) }
    ensures middle { (h : List S.Item)
        → PairStandsFor (S.layout first.old) (S.held first.old) (P.layout second.old) (P.held second.old) h
        → stage_given (S.layout first.old) (h ++ turn.old) ≡ stage_given (S.layout first.old) h ++ middle.new }
    ensures late { let l = S.layout first.old in (h : List S.Item)
        → PairStandsFor l (S.held first.old) (P.layout second.old) (P.held second.old) h
        → (p : ℕ) → p < l.paths
        → slice_index_or turn.new p l.zero
        ≡ delayed (l.paths * l.delay) l.zero (item_of l.zero (h ++ turn.old)) (length h + p) }
    ensures first_layout { S.layout first.new ≡ S.layout first.old }
    ensures second_layout { P.layout second.new ≡ P.layout second.old }
{
    first.feed(turn, middle);
    second.feed(middle, turn);
}
