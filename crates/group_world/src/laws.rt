// The laws of the world around a group, as a call that does nothing.
ghost use Rattle.group_world.specs.Laws.{Counting, HasOrigin, MailboxIsFifo, NamesSend};

/// What is kept around each process is what is counted out of the acts; each datagram in a mailbox came
/// from outside or is one that was sent; each is taken in its turn, and has an act that gave it; and a
/// datagram that was sent names its send, unless the send's clock is past those that a tag can bear.
pub fn by_counting()
    ensures counted { Counting }
    ensures origin { HasOrigin }
    ensures turn { MailboxIsFifo }
    ensures named { NamesSend }
{
    lamport_tag::laws::tags_read_back();
}
