// The calls that a module may import.
ghost use Rattle.std.specs.Prelude.{◌≡◌};
ghost use Rattle.guest_module.specs.Library.{importable};

use call_table::Kind;

/// The kind of the calls that are imported under this name, if there is one.
#[tactic(auto, unfolding(crate::specs::Library::importable))]
pub fn importable(name: &[u8]) -> Option<Kind>
    ensures { result ≡ importable name.now }
{
    match Kind::from_name(name)? {
        Kind::Begin => None,
        kind => Some(kind),
    }
}
