//! What messages keep true of all records.
ghost use Rattle.std.specs.Prelude.{◌≡◌, ℕ, List, Ok, Some};
ghost use Rattle.std.specs.FinMap as finmap;
ghost use Rattle.gfx_quant.specs.declared.quant.Component.{Component};
ghost use Rattle.gfx_prog_block.specs.declared.region.Region.{Region as RegionRead};
ghost use Rattle.gfx_prog_block.specs.declared.tile.Tile.{Tile};
ghost use Rattle.gfx_prog_block.specs.declared.tile.UpgradePass.{UpgradePass};
ghost use Rattle.gfx_tile_state.specs.declared.state.TileState.{TileState};
ghost use Rattle.gfx_tile_state.specs.Record.{part_of};
ghost use Rattle.gfx_prog_decode.specs.declared.key.Place.{Place};
ghost use Rattle.gfx_prog_decode.specs.Coding.{Coding};
ghost use Rattle.gfx_prog_decode.specs.OneTransform.{AreOfOne, IsOf, IsOfOne};
ghost use Rattle.gfx_prog_decode.specs.Passes.{improved};
ghost use Rattle.gfx_prog_decode.specs.Progressive.{after_message, after_tile};
ghost use Rattle.gfx_prog_decode.specs.Records.{Records, without_context, without_surface};
ghost use Rattle.gfx_prog_decode.specs.Scene.{Scene};

/// Of each record that messages leave, passes of the record's transform alone left each component. So an upgrade that isn't
/// refused finds each component so, with its own transform: the signs that are known are those of the sums
/// (`gfx_tile_state::known_signs`).
pub fn one_transform()
    ensures none { AreOfOne finmap.empty }
    ensures tile { (place : Place) (region : RegionRead) (tile : Tile) (old new : Scene) → AreOfOne old.records → after_tile place region tile old ≡ Ok new → AreOfOne new.records }
    ensures message { (place : Place) (bytes : List ℕ) (old new : Scene) → AreOfOne old.records → after_message place bytes old ≡ Ok new → AreOfOne new.records }
    ensures surface { (records : Records) (id : ℕ) → AreOfOne records → AreOfOne (without_surface records id) }
    ensures context { (records : Records) (id context : ℕ) → AreOfOne records → AreOfOne (without_context records id context) }
    ensures upgrade { (coding : Coding) (pass : UpgradePass) (old new : TileState) → IsOfOne old → improved coding pass old ≡ Ok new → (component : Component) → IsOf coding.transform (part_of old component) }
{}
