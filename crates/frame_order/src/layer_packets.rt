//! The packets of a frame's layers.

/// Packets of a frame, layer by layer: whole packets of 188 bytes one after another. Where a layer has fewer than its
/// packets of a frame, null packets stand behind them; what it has beyond them is not sent.
#[derive(Clone, Copy, Debug)]
pub struct LayerPackets<'a> {
    /// Packets of layer A.
    pub a: &'a [u8],
    /// Packets of layer B.
    pub b: &'a [u8],
    /// Packets of layer C.
    pub c: &'a [u8],
}
