// The law of the table, as a call that does nothing.
ghost use Rattle.std.specs.Prelude.{◌≡◌, ◌↔◌, ℕ, List, Some};
ghost use Rattle.call_table.specs.declared.kind.Kind.{Kind};
ghost use Rattle.call_table.specs.Table.{kind_named, kind_numbered, row};

/// A number or a name is that of a kind exactly where the kind is read from it.
pub fn read_back()
    ensures numbers { (kind : Kind) (number : ℕ) → (kind_numbered number ≡ Some kind) ↔ ((row kind).number ≡ number) }
    ensures names { (kind : Kind) (name : List ℕ) → (kind_named name ≡ Some kind) ↔ ((row kind).name ≡ name) }
{}
