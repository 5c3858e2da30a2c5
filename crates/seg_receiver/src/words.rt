//! What the TMCC word of a frame asks of the next, and partial reception of a frame.

ghost use Rattle.std.specs.Prelude.{◌≡◌, Some, None, MatchResult};
ghost use Rattle.seg_receiver.specs.ReceiveRefusals.{expected, part_refusal};

use crate::fault::ReceiveFault;
use isdbt_base::Setting;
use tmcc_word::TmccInfo;

/// The setting that the word of a frame lets expect for the next frame: its next one where its countdown is 0, and else its
/// present one (ARIB STD-B31 chapter 3).
pub fn expected_setting(info: &TmccInfo) -> Option<Setting>
    ensures { result ≡ expected info.entry.now }
{
    if info.countdown == 0 {
        info.next
    } else {
        Some(info.now)
    }
}

/// Whether a frame of this setting can be received partially, which asks for the setting's flag.
pub fn check_part(frame: u32, setting: &Setting) -> Result<(), ReceiveFault>
    ensures { MatchResult result (λ received. part_refusal frame setting.now ≡ None) (λ fault. part_refusal frame setting.now ≡ Some fault) }
{
    if !setting.partial() {
        return Err(ReceiveFault::NotPartial { frame });
    }
    Ok(())
}
