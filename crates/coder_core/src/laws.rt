//! Laws of what is sent of a plan.

ghost use Rattle.std.specs.Prelude.{◌≡◌, ℕ, ◌%◌, ◌==◌, Ok};
ghost use Rattle.isdbt_base.specs.Plans.{Schedule, IsPlan};
ghost use Rattle.isdbt_base.specs.Frames.{FramePackets};
ghost use Rattle.tmcc_word.specs.Reading.{read};
ghost use Rattle.coder_core.specs.SentCells.{plan_word, plan_info, frame_cells, AgreeUpTo};

/// The cells of a frame depend on the packets of the frames up to it alone.
pub fn cells_law()
    ensures { (p : Schedule) (frames other : FramePackets) (f : ℕ) → IsPlan p → AgreeUpTo p f frames other → frame_cells p frames f ≡ frame_cells p other f }
{}

/// The TMCC word of a frame reads as what the plan says of the frame, and whether its number is odd.
pub fn word_law()
    ensures { (p : Schedule) (f : ℕ) → IsPlan p → read (plan_word p f) ≡ Ok (plan_info p f, f % 2 == 1) }
{}
