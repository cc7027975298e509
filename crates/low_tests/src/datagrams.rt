// Datagrams that are delivered to their own sender, and very often.
ghost use Rattle.std.specs.Prelude.{◌≡◌, ◌<◌, length};

use lamport_tag::Tag;
use lossy_net::Net;
use std::test::Fail;

// A datagram of process 0, with clock 2 and a payload of four bytes.
const PING: &[u8] = b"\xd7LOG\0\0\0\0\x02\0\0\0\0\0\0\0ping";

const PING_TAG: Tag = Tag {
    sender: 0,
    clock: 2,
};

// Takes the first datagram out of a mailbox: whether there was one with this tag and payload.
fn takes(net: &mut Net, p: u32, tag: Option<Tag>, payload: &[u8]) -> bool
    requires { p < length net.old }
    ensures { length net.new ≡ length net.old }
{
    let is_wanted = match net.front(p) {
        Some(front) => front.tag == tag && front.payload == payload,
        None => return false,
    };
    net.pop(p);
    is_wanted
}

#[test]
fn a_process_sends_to_itself(rt: HostRuntime) -> Result<(), Fail> {
    let alloc = rt.alloc();
    let mut net = Net::new(alloc, 1)?;
    net.add_sent(0, 0, PING, &[])?;
    assert!(rt; net.deliver(0, 1)?);
    assert!(rt; net.deliver(0, 1)?);
    assert!(rt; takes(&mut net, 0, Some(PING_TAG), b"ping"));
    assert!(rt; takes(&mut net, 0, Some(PING_TAG), b"ping"));
    assert!(rt; net.front(0).is_none());
    Ok(())
}

// Copies of the datagram would take six gigabytes.
#[test]
fn a_datagram_is_kept_once(rt: HostRuntime) -> Result<(), Fail> {
    let alloc = rt.alloc();
    let mut net = Net::new(alloc, 2)?;
    let payload = vec![in alloc; 7; 60_000]?;
    net.add_sent(0, 1, &[], &payload)?;
    for _ in 0..100_000 {
        assert!(rt; net.deliver(0, 1)?);
    }
    assert!(rt; net.front(1).is_some());
    Ok(())
}
