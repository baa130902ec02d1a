//! Which pictures of waiting paints keep their pixels.

ghost use Rattle.std.specs.Prelude.{◌≡◌, ◌&&◌};
ghost use Rattle.gfx_window.specs.Sparing.{AsideFrom, items_marked, step_marked, surely_sent};
ghost use Rattle.gfx_script.specs.Script.{step_at};
ghost use Rattle.gfx_window.specs.Superseded.{is_left_out, plain_area};

use crate::covering::{is_covered, plain_write, stands_aside};
use crate::window::Queued;
use gfx_script::{Marks, Script, Step};

/// Marks the pictures of the newest items, and of the older ones but for those that one of the newest covers while each
/// item between stands aside. It looks at the newest items once for each older one that may be covered.
pub(crate) fn mark_surely_sent(
    script: &Script,
    older: &[Queued],
    newest: &[Queued],
    marks: &mut Marks,
)
    ensures { marks.new ≡ items_marked script.now marks.old (surely_sent script.now older.now newest.now) }
{
    let quiet = aside_from(script, older);
    'older: for place in 0..older.len() {
        let item = older[place];
        if !need_not_be_sent(script, item, quiet <= place + 1, newest) {
            mark_item(script, item, marks);
        }
    }
    mark_items(script, newest, marks);
}

/// The first place from which on all of these items stand aside.
fn aside_from(script: &Script, items: &[Queued]) -> usize
    ensures { AsideFrom script.now items.now result }
{
    let mut from = items.len();
    'items: while 0 < from {
        if !stands_aside(script, items[from - 1]) {
            return from;
        }
        from -= 1;
    }
    0
}

/// Whether one of the newest items covers an item, and those between stand aside.
fn need_not_be_sent(script: &Script, item: Queued, are_aside: bool, newest: &[Queued]) -> bool
    ensures { result ≡ are_aside && is_left_out script.now (plain_area script.now item) newest.now }
{
    are_aside && is_left_out(script, item, newest)
}

/// Whether an item is a plain write that one of the newest items covers.
fn is_left_out(script: &Script, item: Queued, newest: &[Queued]) -> bool
    ensures { result ≡ is_left_out script.now (plain_area script.now item) newest.now }
{
    match plain_write(script, item) {
        None => false,
        Some(write) => is_covered(script, write, newest),
    }
}

/// Marks the picture of an item, where it is a paint.
fn mark_item(script: &Script, item: Queued, marks: &mut Marks)
    ensures { marks.new ≡ step_marked marks.old (step_at script.now.steps item.step) }
{
    if let Some(Step::Paint { picture, .. }) = script.step(item.step) {
        marks.mark(*picture);
    }
}

/// Marks the pictures of these items.
fn mark_items(script: &Script, items: &[Queued], marks: &mut Marks)
    ensures { marks.new ≡ items_marked script.now marks.old items.now }
{
    'items: for item in items {
        mark_item(script, *item, marks);
    }
}
