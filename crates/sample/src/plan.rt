//! The plan of a sample.

ghost use Rattle.std.specs.Prelude.{◌≡◌, ◌≤◌};
ghost use Rattle.sample.specs.SamplePlan.{layer_with, two_layers, first_setting, second_setting, sample_plan};

use isdbt_base::{DepthCode, Guard, LayerSetting, Mode, Modulation, Plan, Rate, Setting};

/// The frames of a sample: eight before the switch, three with the rest of the input, and four more.
pub const FRAMES: u32 = 15;

/// The first frame of the second setting.
pub const SWITCH: u32 = 8;

/// The parameters of a layer of 1 to 13 segments.
fn layer_with(segments: u32, modulation: Modulation, rate: Rate, depth: DepthCode) -> LayerSetting
    requires least { 1 ≤ segments }
    requires most { segments ≤ 13 }
    ensures { result ≡ layer_with segments modulation rate depth }
{
    match LayerSetting::new(segments, modulation, rate, depth) {
        Some(layer) => layer,
        None => unreachable!(),
    }
}

/// The setting that a sample begins with.
fn first_setting() -> Setting
    ensures { result ≡ first_setting }
{
    let a = layer_with(1, Modulation::Qpsk, Rate::R23, DepthCode::D1);
    let b = layer_with(12, Modulation::Qam16, Rate::R12, DepthCode::D0);
    match Setting::new(true, a, Some(b), None) {
        Ok(setting) => setting,
        Err(_) => unreachable!(),
    }
}

/// The setting that follows at the switch.
fn second_setting() -> Setting
    ensures { result ≡ second_setting }
{
    let a = layer_with(1, Modulation::Qpsk, Rate::R12, DepthCode::D0);
    let b = layer_with(12, Modulation::Qam16, Rate::R34, DepthCode::D1);
    match Setting::new(true, a, Some(b), None) {
        Ok(setting) => setting,
        Err(_) => unreachable!(),
    }
}

/// The plan of all samples: mode 1, guard interval 1/4, two layers with partial reception, and a switch at frame 8.
pub fn sample_plan() -> Plan
    ensures { result ≡ sample_plan }
{
    let mut plan = Plan::new(Mode::M1, Guard::G4, first_setting());
    match plan.add_switch(SWITCH, second_setting()) {
        Ok(()) => plan,
        Err(_) => unreachable!(),
    }
}
