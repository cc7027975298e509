// What a watch looks at.
ghost use Rattle.std.specs.Prelude.{◌≡◌, ℕ, ◌<◌, List, Some};
ghost use Rattle.page_watch.specs.Touch.{MarksTell};
ghost use Rattle.watch_expr.specs.declared.reads.Place.{Place};
ghost use Rattle.watch_expr.specs.declared.reads.Place.TheVariants as place;
ghost use Rattle.watch_expr.specs.View.{Node};

use watch_expr::View;

/// A group at a position, that also tells what was touched on the way to it. A mark is the last position at which an event
/// touched the place, or 0 where none did; a node or a place that isn't there has mark 0.
pub trait TouchView: View {
    /// The states of the nodes at each position from 0 up to its own.
    ghost states: { Self → ℕ → List Node };

    /// Its position.
    ghost at: { Self → ℕ };

    /// The mark of each place.
    ghost marks: { Self → Place → ℕ };

    /// The position whose state expressions see.
    fn position(&self) -> u64
        ensures is { result ≡ at self.now }
        ensures here { Self.nodes self.now ≡ states self.now (at self.now) }
        ensures tells { MarksTell (states self.now) (at self.now) (marks self.now) };

    /// The node that had the last event. At position 0 nothing is said of it.
    fn last_node(&self) -> Option<u32>
        ensures { 0 < at self.now → (n : ℕ) → marks self.now (place.Motion n) ≡ at self.now → result ≡ Some n };

    /// The mark of a watch page.
    fn stamp(&self, node: u32, page: u32) -> u64
        ensures { result ≡ marks self.now (place.Page node page) };

    /// The mark of a global.
    fn global_stamp(&self, node: u32, n: u32) -> u64
        ensures { result ≡ marks self.now (place.Global node n) };

    /// The last position at which the node had an event.
    fn moved(&self, node: u32) -> u64
        ensures { result ≡ marks self.now (place.Motion node) };

    /// The mark of the size of the node's memory.
    fn resized(&self, node: u32) -> u64
        ensures { result ≡ marks self.now (place.Size node) };
}
