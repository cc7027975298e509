// The laws of tags, as calls that do nothing.
ghost use Rattle.std.specs.Prelude.{ℕ, List, take};
ghost use Rattle.lamport_tag.specs.Laws.{IsFromGroup, IsReadBack, StaysUntagged};
ghost use Rattle.lamport_tag.specs.Tag.{IsUntagged};

/// A datagram that is cut at its end has no tag where it had none.
pub fn cut_short()
    ensures untagged { (count cap : ℕ) (datagram : List ℕ) → IsUntagged count datagram → IsUntagged count (take cap datagram) }
    ensures found { StaysUntagged }
{}

/// A tag that is found is one that a process of the group can have sent, and such a tag is found again
/// in front of what follows it.
pub fn tags_read_back()
    ensures sent { IsFromGroup }
    ensures again { IsReadBack }
{}
