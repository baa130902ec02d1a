ghost use Rattle.std.specs.Prelude.{◌≡◌, ◌≤◌, ◌-◌, ℕ, List, ℤ, Result, Ok, IsOk, length, true};
ghost use Rattle.gfx_base.specs.declared.pixel.Pixel.{Pixel};
ghost use Rattle.gfx_base.specs.declared.refusal.Refusal.{Refusal};
ghost use Rattle.gfx_base.specs.Field.{IsBytes};
ghost use Rattle.gfx_bits.specs.Bits.{bits_of};
ghost use Rattle.gfx_rlgr.specs.Rlgr.{Rlgr};
ghost use Rattle.gfx_quant.specs.declared.quant.Component.{Component};
ghost use Rattle.gfx_quant.specs.declared.setting.Setting.{Setting};
ghost use Rattle.gfx_quant.specs.Setting.{base_of, is_accepted};
ghost use Rattle.gfx_tile_state.specs.declared.shape.PassShape.{PassShape};
ghost use Rattle.gfx_tile_state.specs.declared.state.TileState.{TileState};
ghost use Rattle.gfx_tile_state.specs.Entries.{AreEntries};
ghost use Rattle.gfx_tile_state.specs.Passes.{Part, blank, coefficients};
ghost use Rattle.gfx_tile_state.specs.Record.{StartsIn, UpgradesIn, part_of};
ghost use Rattle.gfx_tile_make.specs.Levels.{MayBeSent, ShapeIs, direct_pixel, direct_plane, first_values, record_at, shown_at, values_at};
ghost use Rattle.gfx_tile_make.specs.Source.{Planes, SourceTile, difference_of, planes_of, source_of};
ghost use Rattle.gfx_tile_make.specs.Upgrade.{IsPass, entries_to, upgrade_to};

/// A tile of pixels may be sent, by each accepted setting.
pub fn plain_may_be_sent()
    ensures { (setting : Setting) (pixels : List Pixel) → is_accepted setting ≡ true → ((component : Component) → length (base_of component setting) ≡ 10) → MayBeSent (source_of setting pixels) }
{}

/// The code of a tile's first values, taken by any record over the kept plane that is due, is not
/// refused and leaves the record of the first level.
pub fn first_is_shown()
    ensures { (result : Result (Unit {0}) Refusal) (source : SourceTile) (component : Component) (bytes : List ℕ) (shape : PassShape) (kept : List ℤ) (old new : TileState) → MayBeSent source → ShapeIs source 0 shape
        → Rlgr bytes (Ok (first_values source.setting.transform (values_at source component 0))) → kept ≡ (record_at source component 0).kept
        → StartsIn result component bytes shape kept old new → IsOk result × (part_of new component ≡ record_at source component 0) }
{}

/// What a server writes to raise a component is read as what its values gain.
pub fn pass_is_read()
    ensures { (source : SourceTile) (component : Component) (level : ℕ) (srl raw : List ℕ) → MayBeSent source → 1 ≤ level → level ≤ length source.setting.levels → IsPass source component level srl raw
        → AreEntries (upgrade_to source component level (bits_of srl) (bits_of raw)) (entries_to source component level) }
{}

/// Taken by a record of the level before, it is not refused and leaves the record of its level.
pub fn upgrade_is_shown()
    ensures { (result : Result (Unit {0}) Refusal) (source : SourceTile) (component : Component) (level : ℕ) (srl raw : List ℕ) (shape : PassShape) (old new : TileState) → MayBeSent source → 1 ≤ level → level ≤ length source.setting.levels → ShapeIs source level shape
        → IsPass source component level srl raw → part_of old component ≡ record_at source component (level - 1)
        → UpgradesIn result component srl raw shape old new → IsOk result × (part_of new component ≡ record_at source component level) }
{}

/// At the last level a record shows a tile's own values, whatever the tile goes on.
pub fn last_is_direct()
    ensures coefficients { (source : SourceTile) (component : Component) → MayBeSent source → coefficients (record_at source component (length source.setting.levels)) ≡ direct_plane source.setting.transform (base_of component source.setting) (planes_of source component).own }
    ensures pixels { (source : SourceTile) → MayBeSent source → (y x : ℕ) → shown_at source (length source.setting.levels) y x ≡ direct_pixel source y x }
{}

/// A tile goes on nothing from a plane of zeros, and on another from the coefficients of that one's
/// record at the last level.
pub fn kept_is_due()
    ensures plain { (source : SourceTile) (component : Component) (level : ℕ) → (planes_of source component).kept ≡ blank → (record_at source component level).kept ≡ blank }
    ensures difference { (source kept : SourceTile) (component : Component) (level : ℕ) → MayBeSent kept → kept.setting ≡ source.setting → (record_at (difference_of source kept) component level).kept ≡ coefficients (record_at kept component (length kept.setting.levels)) }
{}

/// One list of bytes each raises a component to a level.
pub fn one_pass()
    ensures { (source : SourceTile) (component : Component) (level : ℕ) (srl other raw more : List ℕ) → IsBytes srl → IsBytes other → IsBytes raw → IsBytes more → IsPass source component level srl raw → IsPass source component level other more → (srl ≡ other) × (raw ≡ more) }
{}
