//! Places of cells.

ghost use Rattle.std.specs.Prelude.{◌≡◌, ◌<◌, Some};
ghost use Rattle.isdbt_base.specs.LayerParameters.{LayerParameters};
ghost use Rattle.isdbt_base.specs.Parameters.{layer_of, number_of};
ghost use Rattle.isdbt_base.specs.Numbers.{layer_cells};
ghost use Rattle.time_inter.specs.CellPlaces.{place_of};

use isdbt_base::{Layer, Mode, Setting, carriers};

/// Where a cell stands in a symbol.
#[derive(Clone, Copy, Debug, PartialEq, Eq)]
pub struct CellPlace {
    /// Segment, 0 to 12.
    pub segment: u32,
    /// Data carrier of the segment, from 0.
    pub carrier: u32,
}

/// The place of cell `w` of a used layer's symbol: layers take segments in the order A, B, C, and the cells of a layer
/// fill segment after segment, and in it carrier after carrier.
pub fn place(setting: &Setting, layer: Layer, mode: Mode, w: u32) -> CellPlace
    requires { w < number_of (layer_cells mode) (layer_of setting.now layer) }
    ensures { result ≡ place_of setting.now layer mode w }
{
    CellPlace {
        segment: setting.first_segment(layer) + w / carriers(mode),
        carrier: w % carriers(mode),
    }
}
