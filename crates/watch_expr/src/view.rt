// What an expression reads of a group, and the variables that it names.
ghost use Rattle.std.specs.Prelude.{◌≡◌, ◌<◌, ℕ, ℤ, List, Option, Some, length, option_map, slice_get, IfSome};
ghost use Rattle.guest_memory.specs.Memory.{IsMemory};
ghost use Rattle.watch_expr.specs.View.{Node, node_clock, events_at, global_at, has_ended_at, last_thread_at, part_at, size_at};

/// A group over which an expression is evaluated. It tells a state for each node.
pub trait View {
    /// The states of the nodes, by their numbers.
    ghost nodes: { Self → List Node };

    /// How many nodes there are.
    fn node_count(&self) -> u32
        ensures { result ≡ length (nodes self.now) };

    /// The longest first part of the range that stays in one watch page of 4,096 bytes. `None` comes
    /// exactly where the range does not lie in the node's memory.
    fn lent(&self, node: u32, addr: u64, len: u64) -> Option<&[u8]>
        requires { node < length (nodes self.now) }
        ensures { option_map (λ part. part.now) result ≡ part_at (nodes self.now) node addr len };

    /// The signed value of a global. `None` comes exactly where there is no such global.
    fn global(&self, node: u32, n: u32) -> Option<i64>
        requires { node < length (nodes self.now) }
        ensures { result ≡ global_at (nodes self.now) node n };

    /// The Lamport clock of the node's last event, or 0.
    fn clock(&self, node: u32) -> i64
        requires { node < length (nodes self.now) }
        ensures { node_clock (nodes self.now) node ≡ Some result };

    /// How many events the node has had.
    fn events(&self, node: u32) -> i64
        requires { node < length (nodes self.now) }
        ensures { events_at (nodes self.now) node ≡ Some result };

    /// The thread of the node's last event. `None` comes exactly before its first.
    fn last_thread(&self, node: u32) -> Option<i64>
        requires { node < length (nodes self.now) }
        ensures { result ≡ last_thread_at (nodes self.now) node };

    /// Whether the node has ended.
    fn has_ended(&self, node: u32) -> bool
        requires { node < length (nodes self.now) }
        ensures { has_ended_at (nodes self.now) node ≡ Some result };

    /// The size of the node's memory in Wasm pages: it has whole pages, and at most 256 of them.
    fn pages(&self, node: u32) -> u32
        requires { node < length (nodes self.now) }
        ensures size { size_at (nodes self.now) node ≡ Some result }
        ensures sound { IfSome (slice_get (nodes self.now) node) (λ s. IsMemory s.memory) };
}

/// The variables that an expression can name.
pub trait Scope {
    /// The value of each variable by its name, and `None` where it is undef.
    ghost variables: { Self → List ℕ → Option ℤ };

    fn value(&self, name: &[u8]) -> Option<i64>
        ensures { result ≡ variables self.now name.now };
}

/// A scope in which no variable has a value.
pub struct NoVariables;

impl Scope for NoVariables {
    ghost use Rattle.watch_expr.specs.Reads.{no_variables};

    ghost variables = { λ _. no_variables };

    fn value(&self, _: &[u8]) -> Option<i64> {
        None
    }
}
