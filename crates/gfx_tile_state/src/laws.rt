ghost use Rattle.std.specs.Prelude.{◌≡◌, ◌<◌, ℕ, ℤ, List, Bool, Result, Ok, false};
ghost use Rattle.gfx_base.specs.declared.refusal.Refusal.{Refusal};
ghost use Rattle.gfx_base.specs.Outcome.{Performs};
ghost use Rattle.gfx_rlgr.specs.Rlgr.{Rlgr};
ghost use Rattle.gfx_dwt.specs.declared.layout.Transform.{Transform};
ghost use Rattle.gfx_dwt.specs.Ranges.{at};
ghost use Rattle.gfx_tile_state.specs.declared.shape.PassShape.{PassShape};
ghost use Rattle.gfx_tile_state.specs.declared.state.TileState.{TileState};
ghost use Rattle.gfx_tile_state.specs.Entries.{AreEntries, Pass, band_at, is_low, pass_of, way_at};
ghost use Rattle.gfx_tile_state.specs.Known.{History, Leaves, begun, known, raised, sign_of, ways_by};
ghost use Rattle.gfx_tile_state.specs.Making.{entries_of, first_part, may_add, may_upgrade, upgraded_part};
ghost use Rattle.gfx_tile_state.specs.Passes.{Part, TakesFirst, Upgrades, summed};
ghost use Rattle.gfx_tile_state.specs.Record.{MayAdd, MayUpgrade};
ghost use Rattle.gfx_tile_state.specs.Shapes.{positions_of};

/// The data of an upgrade say one list of entries, so a pass leaves one record.
pub fn one_reading()
    ensures { (pass : Pass) (one other : List ℤ) → AreEntries pass one → AreEntries pass other → one ≡ other }
{}

/// The data of an upgrade always say entries, and what they say is a function of them.
pub fn what_data_say()
    ensures says { (pass : Pass) → AreEntries pass (entries_of pass) }
    ensures only { (pass : Pass) (entries : List ℤ) → AreEntries pass entries → entries ≡ entries_of pass }
{}

/// What a first pass leaves of a component, or why it is refused, is a function of its data.
pub fn a_first_pass_is()
    ensures { (result : Result (Unit {0}) Refusal) (t : Transform) (positions bytes : List ℕ) (kept : List ℤ) (old new : Part)
        → TakesFirst result t positions bytes kept old new → Performs result old new (first_part t positions bytes kept) }
{}

/// So is what an upgrade leaves.
pub fn an_upgrade_is()
    ensures { (result : Result (Unit {0}) Refusal) (pass : Pass) (positions : List ℕ) (old new : Part)
        → Upgrades result pass positions old new → Performs result old new (upgraded_part pass positions old) }
{}

/// And so is whether a difference tile may follow.
pub fn may_add_is()
    ensures { (result : Result (Unit {0}) Refusal) (tile : TileState) (t : Transform) → MayAdd result tile t → result ≡ may_add tile t }
{}

/// And whether an upgrade may.
pub fn may_upgrade_is()
    ensures { (result : Result (Unit {0}) Refusal) (tile : TileState) (shape : PassShape)
        → MayUpgrade result tile shape → result ≡ may_upgrade tile shape.transform (positions_of shape) }
{}

/// Where all passes of a component since its last first pass had one transform, the sign that is known of a place outside
/// LL3 is that of its sum, and an upgrade of that transform reads each place by the sign that is known. Behind passes of
/// two transforms it needn't be: a place of the one's LL3 is one of another band of the other.
pub fn known_signs()
    ensures signs { (t : Transform) (history : History) (part : Part) → Leaves t history part → (k : ℕ) → k < 4096 → is_low (band_at t k) ≡ false → known history k ≡ sign_of (at part.sums k) }
    ensures ways { (t : Transform) (history : History) (part : Part) (positions : List ℕ) (srl bits : List Bool) → Leaves t history part → (k : ℕ) → k < 4096
        → way_at (pass_of t part.positions positions part.sums srl bits) k ≡ ways_by t part.positions positions (known history) k }
{}

/// What a first pass makes, plain or difference, has passes of its transform alone, and what an upgrade of that transform
/// makes of such a component is such a one.
pub fn passes_of_one_transform()
    ensures first { (t : Transform) (positions bytes : List ℕ) (kept : List ℤ) (new : Part) → first_part t positions bytes kept ≡ Ok new
        → (values : List ℤ) × Rlgr bytes (Ok values) × Leaves t (begun (summed t values) positions) new }
    ensures upgrade { (t : Transform) (history : History) (positions : List ℕ) (srl bits : List Bool) (old new : Part) → Leaves t history old
        → upgraded_part (pass_of t old.positions positions old.sums srl bits) positions old ≡ Ok new
        → Leaves t (raised history (record { positions = positions; srl = srl; bits = bits; entries = entries_of (pass_of t old.positions positions old.sums srl bits) })) new }
{}
